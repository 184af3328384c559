// Chroma woven together and taken apart: rows, then planes. A woven row has U and V samples
// alternating, U first. The loop that takes rows apart reads two samples as one number
// (`Sample::two`).
// Rows of a plane go by number: of what a loop over `chunks_mut` writes nothing is known. Three
// planes and a size stay four parameters, here and in `weave`: which planes are written differs,
// and a struct round a `PlaneMut` would have to be taken apart.
ghost use Rattle.std.specs.Prelude.{◌≡◌, ◌+◌, ◌*◌, ◌≤◌, length};
ghost use Rattle.yuv_support.specs.Picture.{row_of};
ghost use Rattle.numerics.specs.Row.{at};
ghost use Rattle.planes.specs.Woven.{alternating, woven, of_u, of_v, unwoven};
ghost use Rattle.planes.specs.Fits.{PlanesFit};
ghost use Rattle.planes.specs.Lent.{plane_of, plane_mut_of};

use sample::Sample;
use sample::plane::{Plane, PlaneMut, Size};

// A woven row, from its samples of U and of V.
fn weave_row<S: Sample>(row: &mut [S], u: &[S], v: &[S])
    requires both { length row.old ≡ 2 * length u.now }
    requires same { length v.now ≡ length u.now }
    ensures { let pairs = alternating (at (S.numbers u.now)) (at (S.numbers v.now)) in
        S.numbers row.new ≡ row_of (λ r. pairs) 0 (S.numbers row.old) }
{
    // By index: a turn writes two places. A loop over chunks_exact_mut does not say what it wrote,
    // and one over the samples takes 2.5 times as long.
    for i in 0..u.len() {
        row[2 * i] = u[i];
        row[2 * i + 1] = v[i];
    }
}

// The samples of U and of V, from a woven row. `zero` is 0, a number of run time.
fn unweave_row<S: Sample>(u: &mut [S], v: &mut [S], row: &[S], zero: u32)
    requires both { length row.now ≡ 2 * length u.old }
    requires same { length v.old ≡ length u.old }
    requires is_zero { zero ≡ 0 }
    ensures u_row { S.numbers u.new
        ≡ row_of (λ r x. at (S.numbers row.now) (2 * x + of_u)) 0 (S.numbers u.old) }
    ensures v_row { S.numbers v.new
        ≡ row_of (λ r x. at (S.numbers row.now) (2 * x + of_v)) 0 (S.numbers v.old) }
{
    // By index: a turn writes into two rows. A loop over their zip does not say what it wrote, and
    // a loop for each takes 1.19 times as long at u16.
    for i in 0..u.len() {
        let pair = S::two(row, 2 * i, zero);
        u[i] = pair.first;
        v[i] = pair.second;
    }
}

// A woven plane, from planes of U and of V. All else in it is kept.
pub fn weave_plane<S: Sample>(uv: PlaneMut<'_, S>, u: Plane<'_, S>, v: Plane<'_, S>, size: Size)
    requires { PlanesFit size.width size.height
        (plane_of S.numbers u) (plane_of S.numbers v) (plane_mut_of S.numbers uv) }
    ensures { S.numbers uv.exit.0.now
        ≡ woven size.width size.height
        (plane_of S.numbers u.entry)
        (plane_of S.numbers v.entry)
        (plane_mut_of S.numbers uv.entry) }
{
    // Taken apart, and the rows cut here: a method that lends a row gets no proof of what the plane
    // is at the end.
    let PlaneMut { elements, stride } = uv;
    let n = 2 * size.width as usize;
    for r in 0..size.height {
        let start = stride as usize * r as usize;
        weave_row(
            &mut elements[start..start + n],
            u.row(r, size.width),
            v.row(r, size.width),
        );
    }
}

// 0, as a number of run time: that the stride is at least the width is known here, and not used
// by the compiler.
fn nothing(width: u32, stride: u32) -> u32
    requires least { 1 ≤ width }
    requires most { width ≤ stride }
    ensures { result ≡ 0 }
{
    (width - 1) / stride
}

// Planes of U and of V, from a woven plane. All else in them is kept.
pub fn unweave_plane<S: Sample>(
    uv: Plane<'_, S>,
    u: PlaneMut<'_, S>,
    v: PlaneMut<'_, S>,
    size: Size,
)
    requires { PlanesFit size.width size.height
        (plane_mut_of S.numbers u) (plane_mut_of S.numbers v) (plane_of S.numbers uv) }
    ensures u_plane { S.numbers u.exit.0.now
        ≡ unwoven of_u size.width size.height
        (plane_of S.numbers uv.entry)
        (plane_mut_of S.numbers u.entry) }
    ensures v_plane { S.numbers v.exit.0.now
        ≡ unwoven of_v size.width size.height
        (plane_of S.numbers uv.entry)
        (plane_mut_of S.numbers v.entry) }
{
    // Taken apart, and the rows cut here: a method that lends a row gets no proof of what the plane
    // is at the end.
    let PlaneMut {
        elements: us,
        stride: u_stride,
    } = u;
    let PlaneMut {
        elements: vs,
        stride: v_stride,
    } = v;
    let n = size.width as usize;
    let zero = nothing(size.width, u_stride);
    for r in 0..size.height {
        let u_start = u_stride as usize * r as usize;
        let v_start = v_stride as usize * r as usize;
        unweave_row(
            &mut us[u_start..u_start + n],
            &mut vs[v_start..v_start + n],
            uv.row(r, 2 * size.width),
            zero,
        );
    }
}
