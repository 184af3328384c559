// The samples of a plane as bytes of a stream, read and written row by row.
// The samples of a row go with their numbers, since `from_bytes` and `put_bytes` take a place: a
// part would have to be cut for each sample. Rows go by number: of what a loop over `chunks_mut`
// writes nothing is known.
ghost use Rattle.std.specs.Prelude.{◌≡◌, ◌+◌, ◌*◌, ◌≤◌, length};
ghost use Rattle.yuv_support.specs.Picture.{row_of};
ghost use Rattle.yuv_support.specs.Questions.{needed};
ghost use Rattle.sheet_writing.specs.Text.{Wrote};
ghost use Rattle.sample.specs.Bytes.{sample_at};
ghost use Rattle.planes.specs.Stream.{row_bytes, plane_bytes, plane_read};

use sample::Sample;
use sample::plane::{Plane, PlaneMut, Size};

// The samples of a row, from its bytes.
fn read_row<S: Sample>(row: &mut [S], bytes: &[u8])
    requires { length bytes.now ≡ S.SIZE * length row.old }
    ensures { S.numbers row.new
        ≡ row_of (λ r x. sample_at S.SIZE bytes.now (S.SIZE * x)) 0 (S.numbers row.old) }
{
    for (i, sample) in row.iter_mut().enumerate() {
        *sample = S::from_bytes(bytes, S::SIZE * i);
    }
}

// The bytes of a row of samples.
fn write_row<S: Sample>(out: &mut [u8], row: &[S])
    requires { length out.old ≡ S.SIZE * length row.now }
    ensures { out.new ≡ row_bytes S.SIZE (S.numbers row.now) }
{
    for (i, sample) in row.iter().enumerate() {
        sample.put_bytes(out, S::SIZE * i);
    }
}

// A plane, from the bytes at a place of a stream. All else in the plane is kept.
// The place goes beside the stream, as the definitions of a frame's places have it: slices of the
// rest would need a law of each place in a slice.
pub fn read_plane<S: Sample>(plane: PlaneMut<'_, S>, s: &[u8], at: usize, size: Size)
    requires wide { size.width ≤ plane.stride }
    requires long { needed plane.stride size.width size.height ≤ length plane.elements.now }
    requires bytes { at + S.SIZE * (size.width * size.height) ≤ length s.now }
    ensures { S.numbers plane.exit.0.now
        ≡ plane_read S.SIZE s.now at size.width size.height
        plane.entry.stride
        (S.numbers plane.entry.elements.now) }
{
    // Taken apart, and the rows cut here: a method that lends a row gets no proof of what the plane
    // is at the end.
    let PlaneMut { elements, stride } = plane;
    let columns = size.width as usize;
    let n = S::SIZE * columns;
    for r in 0..size.height {
        let start = stride as usize * r as usize;
        let from = at + n * r as usize;
        read_row(&mut elements[start..start + columns], &s[from..from + n]);
    }
}

// The bytes of a plane, from a place of the output on; the answer is the place after them.
// The place goes beside the output, since `Wrote` says at once what was written and that all else
// is kept: slices of the rest would need that said again for each plane.
#[tactic(auto, using(crate::proofs::StreamPlanes::next_room))]
pub fn write_plane<S: Sample>(out: &mut [u8], at: usize, plane: Plane<'_, S>, size: Size) -> usize
    requires wide { size.width ≤ plane.stride }
    requires long { needed plane.stride size.width size.height ≤ length plane.elements.now }
    requires room { at + S.SIZE * (size.width * size.height) ≤ length out.old }
    ensures { let samples = S.numbers plane.entry.elements.now in
        let bytes = plane_bytes S.SIZE plane.entry.stride size.width size.height samples in
        Wrote out.old at bytes out.new result }
{
    let n = S::SIZE * size.width as usize;
    // Counted by hand: it is the answer too.
    let mut to = at;
    for r in 0..size.height {
        write_row(&mut out[to..to + n], plane.row(r, size.width));
        to += n;
    }
    to
}
