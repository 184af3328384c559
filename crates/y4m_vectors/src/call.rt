// A call of the list, and whether the library answers as the list says.
use crate::list::List;
use sample::Sample;
use sample::plane::PlaneMut;
use std::alloc::{AllocError, Global};
use y4m::Y4mFrame;

// What is called: the reader of a header, or of a frame into planes of bytes or of `u16`.
#[derive(Clone, Copy)]
enum Kind {
    Header,
    Bytes,
    Words,
    // A number that stands for no kind: no answer is that of such a call.
    Unknown,
}

impl From<u64> for Kind {
    fn from(code: u64) -> Kind {
        match code {
            0 => Kind::Header,
            1 => Kind::Bytes,
            2 => Kind::Words,
            _ => Kind::Unknown,
        }
    }
}

// A plane has at most so many elements; the list has none that is longer.
const LONGEST: usize = 256;

// A plane that is lent: its stride, and how many elements it has. As usize, since a vector of so many is made: a `Buffer` has u64.
#[derive(Clone, Copy)]
struct Room {
    stride: u32,
    length: usize,
}

// A call of the list. A header's has a place and planes too, which are not looked at: the calls of the list have one form.
#[derive(Clone, Copy)]
pub struct Call<'a> {
    kind: Kind,
    stream: &'a [u8],
    place: u64,
    y: Room,
    u: Room,
    v: Room,
    answer: [u64; 9],
}

// Every element before the call.
const KEPT: u8 = 170;

// The numbers of an answer in the order of the list.
fn numbers_of(f: Y4mFrame) -> [u64; 9] {
    [
        f.number,
        f.expected,
        f.received,
        f.next,
        u64::from(f.width),
        u64::from(f.height),
        u64::from(f.sampling),
        u64::from(f.depth),
        u64::from(f.found),
    ]
}

impl<'a> Call<'a> {
    // The next call of the list; its planes come next. None where the list ends before its stream does.
    pub(super) fn read(list: &mut List<'a>) -> Option<Call<'a>> {
        let kind = Kind::from(list.u64());
        let stream_length = list.size();
        let place = list.u64();
        let [y_stride, u_stride, v_stride] = [list.u32(), list.u32(), list.u32()];
        let y = Room {
            stride: y_stride,
            length: list.size().min(LONGEST),
        };
        let u = Room {
            stride: u_stride,
            length: list.size().min(LONGEST),
        };
        let v = Room {
            stride: v_stride,
            length: list.size().min(LONGEST),
        };
        let mut answer = [0u64; 9];
        for number in &mut answer {
            *number = list.u64();
        }
        let stream = list.take(stream_length)?;
        Some(Call {
            kind,
            stream,
            place,
            y,
            u,
            v,
            answer,
        })
    }

    // Whether a frame read again is that of the list, whose planes come next.
    fn has_frame<S: Sample + From<u8>>(
        &self,
        alloc: Global,
        list: &mut List<'_>,
    ) -> Result<bool, AllocError> {
        let mut y = vec![in alloc; S::from(KEPT); self.y.length]?;
        let mut u = vec![in alloc; S::from(KEPT); self.u.length]?;
        let mut v = vec![in alloc; S::from(KEPT); self.v.length]?;
        let answer = y4m::read(
            self.stream,
            self.place,
            PlaneMut {
                elements: &mut y,
                stride: self.y.stride,
            },
            PlaneMut {
                elements: &mut u,
                stride: self.u.stride,
            },
            PlaneMut {
                elements: &mut v,
                stride: self.v.stride,
            },
        );
        let y_same = list.has_plane(&y);
        let u_same = list.has_plane(&u);
        let v_same = list.has_plane(&v);
        Ok(numbers_of(answer) == self.answer && y_same && u_same && v_same)
    }

    // Whether the answer is that of the list, whose planes come next.
    pub(super) fn is_answered(
        &self,
        alloc: Global,
        list: &mut List<'_>,
    ) -> Result<bool, AllocError> {
        match self.kind {
            Kind::Header => Ok(numbers_of(y4m::header(self.stream)) == self.answer),
            Kind::Bytes => self.has_frame::<u8>(alloc, list),
            Kind::Words => self.has_frame::<u16>(alloc, list),
            Kind::Unknown => Ok(false),
        }
    }
}
