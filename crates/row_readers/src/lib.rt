// Two readers over a picture of any element: a finished row as a part of the destination, and a luma row's near chroma row as a part of the
// U or the V plane. Nothing is asked of the caller. The `_part` functions give the answer as numbers, with the part's start and length, for
// hosts to whom no reference can be returned.
// Codes are numbers here: C hands them over, and questions 1 and 2 are asked of them. A call's parameters are no struct: document 01 fixes
// that a reader is a function of a lent destination, or of two lent planes with one lifetime; a struct of the others would be taken apart at
// once, in `finished_place` and in `near_chroma_place`.
#![tactic(auto)]

ghost use Rattle.std.specs.Prelude.{◌≡◌, ◌+◌, ◌≤◌, length, take, drop, IfOk};
ghost use Rattle.yuv_error.specs.Told.{answered};
ghost use Rattle.row_readers.specs.Readers.{lent, wanted, row_answer, row_part, row_place, chroma_row_answer, chroma_row_part, chroma_row_place};
ghost use Rattle.row_readers.specs.Places.{placed_by, finished_place, near_chroma_place};

use images::{ChromaPlane, check_chroma_row, check_row};
use sample::plane::{Plane, Size};
use yuv_error::report::told_of;
use yuv_error::{Buffer, YuvError};

// The answer as numbers, then where the part starts in its buffer and how many elements it has. On a "no" start and length are 0.
#[repr(C)]
#[derive(Clone, Copy)]
pub struct Part {
    pub number: u64,
    pub expected: u64,
    pub received: u64,
    pub start: u64,
    pub length: u64,
}

// Where a row lies in its buffer: `length` elements from `start` on.
#[derive(Clone, Copy)]
struct Place {
    start: usize,
    length: usize,
}

impl Place {
    fn cut<'a, T: Copy>(self, buffer: &'a [T]) -> &'a [T]
        requires { self.start + self.length ≤ length buffer.now }
        ensures { result.now ≡ take self.length (drop self.start buffer.now) }
    {
        &buffer[self.start..self.start + self.length]
    }
}

// A function and no `From`: an `impl` for `Result<Place, YuvError>` would have this body and this clause, and be no plainer.
fn part_of(place: Result<Place, YuvError>) -> Part
    ensures { result ≡ placed_by place }
{
    let told = told_of(place);
    let place = place.unwrap_or(Place {
        start: 0,
        length: 0,
    });
    Part {
        number: told.number,
        expected: told.expected,
        received: told.received,
        start: place.start as u64,
        length: place.length as u64,
    }
}

// ---- the finished row

// Where the finished row lies in the destination.
#[tactic(auto, using(yuv_support::proofs::Rows::row_fits))]
fn finished_place<T: Copy>(
    order: u32,
    size: Size,
    rgb: Plane<'_, T>,
    row: u32,
) -> Result<Place, YuvError>
    ensures answer { answered result ≡
        row_answer order size.width size.height (lent rgb.entry) row }
    ensures place { IfOk result (λ p. p ≡ finished_place order size.width rgb.entry.stride row) }
    ensures fits { IfOk result (λ p. p.start + p.length ≤ length rgb.entry.elements.now) }
{
    let lent = Buffer::from(rgb);
    let letters = check_row(order, size, lent, row)?;
    let start = rgb.stride as usize * row as usize;
    let length = images::row_length(size.width, letters) as usize;
    Ok(Place { start, length })
}

// Row `row` of the destination, width·channels elements. Questions 2 of the order code, 3 to 6, and 14.
#[tactic(auto, unfolding(crate::specs::Readers::row_part, yuv_support::specs::Questions::finished_row))]
pub fn finished_row<'a, T: Copy>(
    order: u32,
    size: Size,
    rgb: Plane<'a, T>,
    row: u32,
) -> Result<&'a [T], YuvError>
    ensures answer { answered result ≡
        row_answer order size.width size.height (lent rgb.entry) row }
    ensures part { IfOk result (λ part. part.now ≡
        row_part order size.width size.height rgb.entry.elements.now rgb.entry.stride row) }
{
    let place = finished_place(order, size, rgb, row)?;
    Ok(place.cut(rgb.elements))
}

// The same part, or an empty one on a "no".
#[tactic(auto, using(yuv_error::proofs::Refused::refused_number), unfolding(crate::specs::Readers::row_part, yuv_support::specs::Questions::finished_row))]
pub fn finished_row_or_empty<'a, T: Copy>(
    order: u32,
    size: Size,
    rgb: Plane<'a, T>,
    row: u32,
) -> &'a [T]
    ensures { result.now ≡
        row_part order size.width size.height rgb.entry.elements.now rgb.entry.stride row }
{
    finished_row(order, size, rgb, row).unwrap_or(&rgb.elements[..0])
}

// The answer as numbers, with the start and the length of the part.
#[tactic(auto, using(crate::proofs::Parts::placed_result), unfolding(crate::specs::Readers::row_place))]
pub fn finished_row_part<T: Copy>(order: u32, size: Size, rgb: Plane<'_, T>, row: u32) -> Part
    ensures { result ≡ row_place order size.width size.height (lent rgb.entry) row }
{
    part_of(finished_place(order, size, rgb, row))
}

// ---- the near chroma row

// A plane of chroma, and where a row lies in it.
#[derive(Clone, Copy)]
struct ChromaPlace<'a, T> {
    plane: Plane<'a, T>,
    place: Place,
}

// The plane wanted, and where the near chroma row lies in it.
#[tactic(auto, using(yuv_support::proofs::Rows::row_fits, yuv_support::proofs::Blend::near_row_lt))]
fn near_chroma_place<'a, T: Copy>(
    sampling: u32,
    plane: u32,
    size: Size,
    u: Plane<'a, T>,
    v: Plane<'a, T>,
    row: u32,
) -> Result<ChromaPlace<'a, T>, YuvError>
    ensures answer { answered result ≡
        chroma_row_answer sampling plane size.width size.height (lent u.entry) (lent v.entry) row }
    ensures plane { IfOk result (λ p. p.plane.elements.now ≡
        wanted plane u.entry.elements.now v.entry.elements.now) }
    ensures place { IfOk result (λ p. p.place ≡
        near_chroma_place sampling size.width size.height
        (wanted plane u.entry.stride v.entry.stride) row) }
    ensures fits { IfOk result (λ p.
        p.place.start + p.place.length ≤ length p.plane.elements.now) }
{
    let u_lent = Buffer::from(u);
    let v_lent = Buffer::from(v);
    let asked = check_chroma_row(sampling, plane, size, u_lent, v_lent, row)?;
    let near = images::near_row(asked.sampling, size.height, row);
    let plane = match asked.plane {
        ChromaPlane::U => u,
        ChromaPlane::V => v,
    };
    let start = plane.stride as usize * near as usize;
    let length = images::chroma_width(size.width) as usize;
    let place = Place { start, length };
    Ok(ChromaPlace { plane, place })
}

// The near chroma row of luma row `row`, chroma width elements, from U for code 0 and from V for code 1. Questions 1, 2 of the code of the
// plane, 3, 4, 9 to 12 of both planes, and 14.
#[tactic(auto, unfolding(crate::specs::Readers::chroma_row_part, yuv_support::specs::Questions::near_chroma_row))]
pub fn near_chroma_row<'a, T: Copy>(
    sampling: u32,
    plane: u32,
    size: Size,
    u: Plane<'a, T>,
    v: Plane<'a, T>,
    row: u32,
) -> Result<&'a [T], YuvError>
    ensures answer { answered result ≡
        chroma_row_answer sampling plane size.width size.height (lent u.entry) (lent v.entry) row }
    ensures part { IfOk result (λ part. part.now ≡
        chroma_row_part sampling plane size.width size.height
        u.entry.elements.now u.entry.stride v.entry.elements.now v.entry.stride row) }
{
    let found = near_chroma_place(sampling, plane, size, u, v, row)?;
    Ok(found.place.cut(found.plane.elements))
}

// The same part, or an empty one on a "no".
#[tactic(auto, using(yuv_error::proofs::Refused::refused_number), unfolding(crate::specs::Readers::chroma_row_part, yuv_support::specs::Questions::near_chroma_row))]
pub fn near_chroma_row_or_empty<'a, T: Copy>(
    sampling: u32,
    plane: u32,
    size: Size,
    u: Plane<'a, T>,
    v: Plane<'a, T>,
    row: u32,
) -> &'a [T]
    ensures { result.now ≡
        chroma_row_part sampling plane size.width size.height
        u.entry.elements.now u.entry.stride v.entry.elements.now v.entry.stride row }
{
    near_chroma_row(sampling, plane, size, u, v, row).unwrap_or(&u.elements[..0])
}

// The answer as numbers, with the start and the length of the part, in the plane wanted.
#[tactic(auto, using(crate::proofs::Parts::placed_result), unfolding(crate::specs::Readers::chroma_row_place))]
pub fn near_chroma_row_part<T: Copy>(
    sampling: u32,
    plane: u32,
    size: Size,
    u: Plane<'_, T>,
    v: Plane<'_, T>,
    row: u32,
) -> Part
    ensures { result ≡
        chroma_row_place sampling plane size.width size.height (lent u.entry) (lent v.entry) row }
{
    part_of(near_chroma_place(sampling, plane, size, u, v, row).map(|found| found.place))
}
