// Questions 7 to 12: the three planes of a picture.
ghost use Rattle.std.specs.Prelude.{◌≡◌, ◌≤◌, Ok, Err, IfOk};
ghost use Rattle.yuv_support.specs.Settings.{sampling_of};
ghost use Rattle.yuv_support.specs.Blend.{chroma_width, chroma_height};
ghost use Rattle.yuv_support.specs.Known.{up_to};
ghost use Rattle.yuv_support.specs.Questions.{verdict, extent, needed, chroma_planes};
ghost use Rattle.yuv_error.specs.Told.{answered};
ghost use Rattle.yuv_error.specs.Asked.{asked};
ghost use Rattle.images.specs.Request.{constraints};
ghost use Rattle.images.specs.Plane.{plane_of};

use crate::Lengths;
use sample::plane::Size;
use yuv_error::{Buffer, Channel, YuvError};
use yuv_support::known_codes::UnknownCode;
use yuv_support::{Geometry, YuvChromaSubsampling};

// The plane that a reader of chroma is asked for.
#[derive(Clone, Copy, Debug, PartialEq, Eq)]
pub enum ChromaPlane {
    U,
    V,
}

impl TryFrom<u32> for ChromaPlane {
    type Error = UnknownCode;

    ghost try_from_gives = { λ code r. r ≡ up_to 1 plane_of code };

    fn try_from(code: u32) -> Result<Self, UnknownCode> {
        match code {
            0 => Ok(ChromaPlane::U),
            1 => Ok(ChromaPlane::V),
            _ => Err(UnknownCode),
        }
    }
}

// Questions 9 to 12: U, then V.
#[tactic(auto, unfolding(yuv_error::specs::Asked::asked))]
pub fn check_chroma_channels(
    sampling: YuvChromaSubsampling,
    size: Size,
    u: Buffer,
    v: Buffer,
) -> Result<(), YuvError>
    ensures answer { result
        ≡ asked (chroma_planes sampling size.width size.height (extent u.length u.stride)
        (extent v.length v.stride)) }
    ensures u_wide { IfOk result (λ _. chroma_width size.width ≤ u.stride) }
    ensures u_fits { IfOk result (λ _. needed u.stride (chroma_width size.width)
        (chroma_height sampling size.height) ≤ u.length) }
    ensures v_wide { IfOk result (λ _. chroma_width size.width ≤ v.stride) }
    ensures v_fits { IfOk result (λ _. needed v.stride (chroma_width size.width)
        (chroma_height sampling size.height) ≤ v.length) }
{
    let chroma = crate::chroma_size(sampling, size);
    Channel::U.check(u, chroma)?;
    Channel::V.check(v, chroma)
}

// Questions 7 to 12: luma, then chroma.
#[tactic(auto, unfolding(yuv_error::specs::Asked::asked, yuv_support::specs::Questions::verdict))]
pub fn check_constraints(
    sampling: YuvChromaSubsampling,
    image: Geometry,
    lengths: Lengths,
) -> Result<(), YuvError>
    ensures asks { result ≡ asked (constraints sampling image lengths) }
    ensures answer { answered result ≡ verdict (constraints sampling image lengths) }
    ensures y_wide { IfOk result (λ _. image.width ≤ image.y_stride) }
    ensures y_fits { IfOk result (λ _. needed image.y_stride image.width image.height ≤ lengths.y) }
    ensures u_wide { IfOk result (λ _. chroma_width image.width ≤ image.u_stride) }
    ensures u_fits { IfOk result (λ _. needed image.u_stride (chroma_width image.width)
        (chroma_height sampling image.height) ≤ lengths.u) }
    ensures v_wide { IfOk result (λ _. chroma_width image.width ≤ image.v_stride) }
    ensures v_fits { IfOk result (λ _. needed image.v_stride (chroma_width image.width)
        (chroma_height sampling image.height) ≤ lengths.v) }
{
    let y = Buffer {
        length: lengths.y,
        stride: image.y_stride,
    };
    let u = Buffer {
        length: lengths.u,
        stride: image.u_stride,
    };
    let v = Buffer {
        length: lengths.v,
        stride: image.v_stride,
    };
    let size = Size::from(image);
    Channel::Y.check(y, size)?;
    check_chroma_channels(sampling, size, u, v)
}
