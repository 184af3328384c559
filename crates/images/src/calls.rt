// The questions of whole calls: of a conversion, of a band of rows, of the settings alone, and of the two readers.
// Codes are numbers here, since questions 1 and 2 are asked of them. Codes, geometry, lengths and stride stay four parameters: C hands over
// the codes and the stride, and a picture makes the geometry and the lengths (`YuvPlanarImage::check_conversion`). That the settings are
// `decoded codes` is said of each result: a type that says it would have to hold the codes as well.
ghost use Rattle.std.specs.Prelude.{◌≡◌, ◌≤◌, ◌<◌, ◌*◌, ◌∷◌, [], true, cond, leb, Ok, Err, IfOk, T};
ghost use Rattle.yuv_support.specs.Settings.{among, sampling_of, order_of, depths};
ghost use Rattle.yuv_support.specs.Picture.{channels_of};
ghost use Rattle.yuv_support.specs.Blend.{chroma_width, chroma_height};
ghost use Rattle.yuv_support.specs.Questions.{needed, verdict, extent, decoded, sampling_known, codes_known, weights_usable, row_below, first_row_usable, questions_of, band_questions, settings_questions, row_questions, chroma_row_questions};
ghost use Rattle.yuv_error.specs.Told.{answered};
ghost use Rattle.yuv_error.specs.Asked.{asked, giving, Precedes};
ghost use Rattle.yuv_error.specs.declared.error.YuvError.TheVariants.{UnknownSampling};
ghost use Rattle.images.specs.Request.{request_of};
ghost use Rattle.images.specs.Plane.{plane_of};

use crate::Lengths;
use crate::planes::{ChromaPlane, check_chroma_channels, check_constraints};
use sample::depths::{Depths, EitherElement};
use sample::plane::Size;
use yuv_error::buffers::{ask, check_rgba_destination, check_sides};
use yuv_error::{Buffer, YuvError};
use yuv_support::known_codes::{MatrixCode, PackingCode};
use yuv_support::{
    Codes, Geometry, Settings, YuvBytesPacking, YuvChromaSubsampling, YuvMode, YuvRange,
    YuvSourceChannels, YuvStandardMatrix,
};

// What the codes of the near chroma row stand for.
#[derive(Clone, Copy, Debug, PartialEq, Eq)]
pub struct ChromaRow {
    pub sampling: YuvChromaSubsampling,
    pub plane: ChromaPlane,
}

// Question 1, and what the code stands for.
pub fn check_sampling(code: u32) -> Result<YuvChromaSubsampling, YuvError>
    ensures answer { result ≡ cond (leb code 1) (Ok (sampling_of code)) (Err UnknownSampling) }
    ensures sampling { IfOk result (λ s. s ≡ sampling_of code) }
{
    YuvChromaSubsampling::try_from(code).map_err(|_| YuvError::UnknownSampling)
}

// Question 2 where the depth is known or not, and the settings in a sampling.
#[tactic(auto, unfolding(yuv_error::specs::Asked::asked))]
fn settings_where(
    sampling: YuvChromaSubsampling,
    codes: Codes,
    depth_known: bool,
) -> Result<Settings, YuvError>
    ensures answer { result
        ≡ giving (asked (codes_known depth_known codes ∷ []))
        (record (decoded codes) { sampling = sampling }) }
    ensures depth { IfOk result (λ s. (s.depth ≡ codes.depth) × (depth_known ≡ true)) }
{
    let order = YuvSourceChannels::try_from(codes.order)?;
    let range = YuvRange::try_from(codes.range)?;
    let matrix = YuvStandardMatrix::try_from(MatrixCode {
        code: codes.matrix,
        kr: codes.kr,
        kb: codes.kb,
    })?;
    let packing = YuvBytesPacking::try_from(PackingCode {
        code: codes.packing,
        depth: codes.depth,
    })?;
    let mode = YuvMode::try_from(codes.mode)?;
    ask(depth_known, YuvError::UnknownCode)?;
    Ok(Settings {
        depth: codes.depth,
        sampling,
        order,
        range,
        matrix,
        packing,
        mode,
    })
}

// The same where the element of the planes says which depths are known.
fn settings_in<D: Depths>(
    sampling: YuvChromaSubsampling,
    codes: Codes,
) -> Result<Settings, YuvError>
    ensures answer { result
        ≡ giving (asked (codes_known (among codes.depth D.known) codes ∷ []))
        (record (decoded codes) { sampling = sampling }) }
    ensures depth { IfOk result (λ s. T (among s.depth depths)) }
{
    settings_where(sampling, codes, D::is_known_depth(codes.depth))
}

// Question 2 alone, where the depth is known or not.
#[tactic(auto, unfolding(yuv_error::specs::Asked::asked))]
pub fn check_codes_where(codes: Codes, depth_known: bool) -> Result<(), YuvError>
    ensures { result ≡ asked (codes_known depth_known codes ∷ []) }
{
    settings_where(YuvChromaSubsampling::Yuv420, codes, depth_known)?;
    Ok(())
}

// Question 2 alone.
pub fn check_codes<D: Depths>(codes: Codes) -> Result<(), YuvError>
    ensures { result ≡ asked (codes_known (among codes.depth D.known) codes ∷ []) }
{
    check_codes_where(codes, D::is_known_depth(codes.depth))
}

// Questions 1 and 2, and the settings that the codes stand for.
#[tactic(auto, unfolding(yuv_error::specs::Asked::asked))]
pub fn decode<D: Depths>(codes: Codes) -> Result<Settings, YuvError>
    ensures answer { result
        ≡ giving (asked
        (sampling_known codes.sampling ∷ codes_known (among codes.depth D.known) codes
        ∷ [])) (decoded codes) }
    ensures settings { IfOk result (λ s. s ≡ decoded codes) }
    ensures depth { IfOk result (λ s. T (among s.depth depths)) }
{
    let sampling = check_sampling(codes.sampling)?;
    settings_in::<D>(sampling, codes)
}

// Question 13.
#[tactic(auto, unfolding(yuv_error::specs::Asked::asked, yuv_support::specs::Coefficients::usable))]
fn check_weights(s: Settings) -> Result<(), YuvError>
    requires { T (among s.depth depths) }
    ensures { result ≡ asked (weights_usable s ∷ []) }
{
    let t = inverse_transform::search_inverse_transform(s);
    ask(
        inverse_transform::is_usable(s.matrix, t),
        YuvError::UnusableWeights,
    )
}

// Question 14.
#[tactic(auto, unfolding(yuv_error::specs::Asked::asked))]
fn check_row_below(row: u32, height: u32) -> Result<(), YuvError>
    ensures answer { result ≡ asked (row_below row height ∷ []) }
    ensures below { IfOk result (λ _. row < height) }
{
    ask(row < height, YuvError::RowOutside)
}

// Question 19.
#[tactic(auto, unfolding(yuv_error::specs::Asked::asked))]
fn check_first_row(first: u32, height: u32) -> Result<(), YuvError>
    ensures { result ≡ asked (first_row_usable first height ∷ []) }
{
    ask(
        first <= height && (first % 2 == 0 || first == height),
        YuvError::UnusableFirstRow,
    )
}

// The size of a destination: width·channels, and the height.
fn letters_size(size: Size, order: YuvSourceChannels) -> Size
    requires { size.width ≤ 16384 }
    ensures { result ≡ record { width = size.width * channels_of order; height = size.height } }
{
    Size {
        width: crate::row_length(size.width, order),
        height: size.height,
    }
}

// A function beside `check_conversion`: as one, three attempts left open the clauses where a plane or the weights are refused.
// Questions 1 to 13 of a conversion whose planes have elements of the type D: the settings, or the error of the first "no".
#[tactic(auto, unfolding(yuv_error::specs::Asked::asked, yuv_support::specs::Questions::questions_of))]
fn conversion<D: Depths>(
    codes: Codes,
    image: Geometry,
    lengths: Lengths,
    rgb_stride: u32,
) -> Result<Settings, YuvError>
    ensures answer { result
        ≡ giving (asked
        (questions_of (among codes.depth D.known)
        (request_of codes image lengths rgb_stride))) (decoded codes) }
    ensures settings { IfOk result (λ s. s ≡ decoded codes) }
{
    let s = decode::<D>(codes)?;
    let size = Size::from(image);
    check_sides(size)?;
    let rgb = Buffer {
        length: lengths.rgb,
        stride: rgb_stride,
    };
    check_rgba_destination(rgb, letters_size(size, s.order))?;
    check_constraints(s.sampling, image, lengths)?;
    check_weights(s)?;
    Ok(s)
}

// The same, told by its numbers.
#[tactic(auto, using(crate::proofs::Told::conversion_answered, crate::proofs::Told::conversion_precedes))]
pub fn check_conversion<D: Depths>(
    codes: Codes,
    image: Geometry,
    lengths: Lengths,
    rgb_stride: u32,
) -> Result<Settings, YuvError>
    ensures answer { answered result
        ≡ verdict (questions_of (among codes.depth D.known)
        (request_of codes image lengths rgb_stride)) }
    ensures settings { IfOk result (λ s. s ≡ decoded codes) }
    ensures further { Precedes result
        (questions_of (among codes.depth D.known) (request_of codes image lengths rgb_stride)) }
{
    conversion::<D>(codes, image, lengths, rgb_stride)
}

// Questions 1 to 13 of the whole picture, then 19.
#[tactic(auto, unfolding(yuv_error::specs::Asked::asked, yuv_support::specs::Questions::verdict))]
pub fn check_band<D: Depths>(
    codes: Codes,
    image: Geometry,
    lengths: Lengths,
    rgb_stride: u32,
    first: u32,
) -> Result<Settings, YuvError>
    ensures answer { answered result
        ≡ verdict (band_questions
        (questions_of (among codes.depth D.known)
        (request_of codes image lengths rgb_stride)) first image.height) }
    ensures settings { IfOk result (λ s. s ≡ decoded codes) }
{
    let s = check_conversion::<D>(codes, image, lengths, rgb_stride)?;
    check_first_row(first, image.height)?;
    Ok(s)
}

// The questions that concern the codes alone, with the depths of either element: 1, 2 and 13.
#[tactic(auto, unfolding(yuv_error::specs::Asked::asked, yuv_support::specs::Questions::verdict, yuv_support::specs::Questions::settings_questions))]
pub fn check_settings(codes: Codes) -> Result<Settings, YuvError>
    ensures answer { answered result
        ≡ verdict (settings_questions (among codes.depth depths) codes) }
    ensures settings { IfOk result (λ s. s ≡ decoded codes) }
    ensures depth { IfOk result (λ _. T (among codes.depth depths)) }
{
    let s = decode::<EitherElement>(codes)?;
    check_weights(s)?;
    Ok(s)
}

// The questions of the finished row: 2 of the order code, 3 to 6, 14.
#[tactic(auto, unfolding(yuv_error::specs::Asked::asked, yuv_support::specs::Questions::verdict, yuv_support::specs::Questions::row_questions))]
pub fn check_row(
    order: u32,
    size: Size,
    rgb: Buffer,
    row: u32,
) -> Result<YuvSourceChannels, YuvError>
    ensures answer { answered result
        ≡ verdict (row_questions order size.width size.height (extent rgb.length rgb.stride) row) }
    ensures letters { IfOk result (λ o. o ≡ order_of order) }
    ensures width_most { IfOk result (λ _. size.width ≤ 16384) }
    ensures row_below { IfOk result (λ _. row < size.height) }
    ensures fits { IfOk result (λ o. needed rgb.stride (size.width * channels_of o) size.height
        ≤ rgb.length) }
{
    let letters = YuvSourceChannels::try_from(order)?;
    check_sides(size)?;
    check_rgba_destination(rgb, letters_size(size, letters))?;
    check_row_below(row, size.height)?;
    Ok(letters)
}

// The questions of the near chroma row: 1, 2 of the code of the plane wanted, 3, 4, 9 to 12 of both planes, 14.
#[tactic(auto, unfolding(yuv_error::specs::Asked::asked, yuv_support::specs::Questions::verdict, yuv_support::specs::Questions::chroma_row_questions))]
pub fn check_chroma_row(
    sampling: u32,
    wanted: u32,
    size: Size,
    u: Buffer,
    v: Buffer,
    row: u32,
) -> Result<ChromaRow, YuvError>
    ensures answer { answered result
        ≡ verdict (chroma_row_questions sampling wanted size.width size.height
        (extent u.length u.stride) (extent v.length v.stride) row) }
    ensures sampling { IfOk result (λ p. p.sampling ≡ sampling_of sampling) }
    ensures plane { IfOk result (λ p. p.plane ≡ plane_of wanted) }
    ensures row_below { IfOk result (λ _. row < size.height) }
    ensures u_fits { IfOk result (λ p. needed u.stride (chroma_width size.width)
        (chroma_height p.sampling size.height) ≤ u.length) }
    ensures v_fits { IfOk result (λ p. needed v.stride (chroma_width size.width)
        (chroma_height p.sampling size.height) ≤ v.length) }
{
    let sampling = check_sampling(sampling)?;
    let plane = ChromaPlane::try_from(wanted)?;
    check_sides(size)?;
    check_chroma_channels(sampling, size, u, v)?;
    check_row_below(row, size.height)?;
    Ok(ChromaRow { sampling, plane })
}
