// Chroma woven together and taken apart, between planes of any strides, of either element. Nothing
// is asked of the caller. The sides are those of the chroma plane. A call that a question refuses
// changes no plane.
#![tactic(auto)]

ghost use Rattle.std.specs.Prelude.{◌≡◌, ◌∷◌, [], ◌≤◌, IfOk};
ghost use Rattle.yuv_support.specs.Questions.{extent};
ghost use Rattle.yuv_error.specs.Told.{answered};
ghost use Rattle.yuv_error.specs.Asked.{asked};
ghost use Rattle.planes.specs.Fits.{PlanesFit};
ghost use Rattle.planes.specs.Lent.{plane_of, plane_mut_of};
ghost use Rattle.weave.specs.Weaving.{plane_usable, weave_questions, weave_answer, after_weaving, u_after_unweaving, v_after_unweaving};

use planes::weave::{unweave_plane, weave_plane};
use sample::Sample;
use sample::plane::{Plane, PlaneMut, Size};
use yuv_error::buffers::{check_rgba_destination, check_sides};
use yuv_error::{Buffer, YuvError};

// Question 22 of a plane, the size being its own: 5 and 6 asked of it, and answered by one error.
#[tactic(auto, unfolding(yuv_error::specs::Asked::asked))]
fn check_plane(plane: Buffer, size: Size) -> Result<(), YuvError>
    ensures { let of_plane = extent plane.length plane.stride in
        result ≡ asked (plane_usable of_plane size.width size.height ∷ []) }
{
    check_rgba_destination(plane, size).map_err(|_| YuvError::UnusablePlane)
}

// Questions 3 and 4, then 22 of U, V and the woven plane.
#[tactic(auto, unfolding(yuv_error::specs::Asked::asked, crate::specs::Weaving::weave_questions))]
fn check_buffers(size: Size, u: Buffer, v: Buffer, uv: Buffer) -> Result<(), YuvError>
    ensures { let of_u = extent u.length u.stride in
        let of_v = extent v.length v.stride in
        let of_uv = extent uv.length uv.stride in
        result ≡ asked (weave_questions size.width size.height of_u of_v of_uv) }
{
    check_sides(size)?;
    check_plane(u, size)?;
    check_plane(v, size)?;
    let woven = Size {
        width: 2 * size.width,
        height: size.height,
    };
    check_plane(uv, woven)
}

// The same, by the numbers of the planes' samples.
fn check_planes<S: Sample>(
    size: Size,
    u: Plane<'_, S>,
    v: Plane<'_, S>,
    uv: Plane<'_, S>,
) -> Result<(), YuvError>
    ensures answer { answered result
        ≡ weave_answer size.width size.height
        (plane_of S.numbers u.entry) (plane_of S.numbers v.entry) (plane_of S.numbers uv.entry) }
    ensures fit { IfOk result (λ _. PlanesFit size.width size.height
        (plane_of S.numbers u.entry) (plane_of S.numbers v.entry) (plane_of S.numbers uv.entry)) }
{
    check_buffers(size, Buffer::from(u), Buffer::from(v), Buffer::from(uv))
}

// U and V, woven into `uv`: in each row U and V samples alternating, U first.
pub fn weave<S: Sample>(
    uv: PlaneMut<'_, S>,
    u: Plane<'_, S>,
    v: Plane<'_, S>,
    size: Size,
) -> Result<(), YuvError>
    ensures answer { answered result
        ≡ weave_answer size.width size.height
        (plane_of S.numbers u.entry)
        (plane_of S.numbers v.entry)
        (plane_mut_of S.numbers uv.entry) }
    ensures woven { S.numbers uv.exit.0.now
        ≡ after_weaving size.width size.height
        (plane_of S.numbers u.entry)
        (plane_of S.numbers v.entry)
        (plane_mut_of S.numbers uv.entry) }
{
    // Taken apart to be read: of a plane that is lent or handed on whole, nothing is known of its
    // elements at the end.
    let PlaneMut { elements, stride } = uv;
    check_planes(size, u, v, Plane { elements, stride })?;
    weave_plane(PlaneMut { elements, stride }, u, v, size);
    Ok(())
}

// The samples of a woven plane, taken apart into `u` and `v`.
pub fn unweave<S: Sample>(
    uv: Plane<'_, S>,
    u: PlaneMut<'_, S>,
    v: PlaneMut<'_, S>,
    size: Size,
) -> Result<(), YuvError>
    ensures answer { answered result
        ≡ weave_answer size.width size.height
        (plane_mut_of S.numbers u.entry)
        (plane_mut_of S.numbers v.entry)
        (plane_of S.numbers uv.entry) }
    ensures u_plane { S.numbers u.exit.0.now
        ≡ u_after_unweaving size.width size.height
        (plane_mut_of S.numbers u.entry)
        (plane_mut_of S.numbers v.entry)
        (plane_of S.numbers uv.entry) }
    ensures v_plane { S.numbers v.exit.0.now
        ≡ v_after_unweaving size.width size.height
        (plane_mut_of S.numbers u.entry)
        (plane_mut_of S.numbers v.entry)
        (plane_of S.numbers uv.entry) }
{
    // Taken apart to be read: of a plane that is lent or handed on whole, nothing is known of its
    // elements at the end.
    let PlaneMut {
        elements: us,
        stride: u_stride,
    } = u;
    let PlaneMut {
        elements: vs,
        stride: v_stride,
    } = v;
    let u_before = Plane {
        elements: us,
        stride: u_stride,
    };
    let v_before = Plane {
        elements: vs,
        stride: v_stride,
    };
    check_planes(size, u_before, v_before, uv)?;
    let u = PlaneMut {
        elements: us,
        stride: u_stride,
    };
    let v = PlaneMut {
        elements: vs,
        stride: v_stride,
    };
    unweave_plane(uv, u, v, size);
    Ok(())
}
