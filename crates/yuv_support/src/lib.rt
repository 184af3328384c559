// The settings of a conversion as types: range, matrix, sampling, channel order, packing and mode, the two weights, the five coefficients.
// Codes are decoded here, except that of a chroma plane, which is decoded in `images`. The definitions of a conversion stand in specs/, one
// module to a subject; those of the answers' numbers, the settings used, the readers and the sheet in the specs of their own crates.
#![tactic(auto)]

ghost use Rattle.std.specs.Prelude.{◌≡◌, ◌-◌, ◌^◌, ◌<◌, ◌≤◌, T};
ghost use Rattle.yuv_support.specs.Settings.{sampling_of, order_of, range_of, matrix_of, packing_of, last_packing, mode_of, among, depths, max_of, chroma_range_of};
ghost use Rattle.yuv_support.specs.Picture.{channels_of};
ghost use Rattle.yuv_support.specs.Questions.{decoded};

pub mod known_codes;

use known_codes::MatrixCode;

// Which levels luma and chroma use.
#[derive(Clone, Copy, Debug, PartialEq, Eq)]
pub enum YuvRange {
    Limited,
    Full,
}

// Six matrices by name, and one that carries its own two weights: the form that document 01 fixes.
#[derive(Clone, Copy, Debug, PartialEq)]
pub enum YuvStandardMatrix {
    Bt601,
    Bt709,
    Bt2020,
    Smpte240,
    Bt470_6,
    Fcc,
    Custom(f32, f32),
}

#[derive(Clone, Copy, Debug, PartialEq, Eq)]
pub enum YuvChromaSubsampling {
    Yuv420,
    Yuv422,
}

// The letters of a pixel, in their order.
#[derive(Clone, Copy, Debug, PartialEq, Eq)]
pub enum YuvSourceChannels {
    Rgb,
    Rgba,
    Bgra,
    Bgr,
}

impl YuvSourceChannels {
    // The number of letters in the order's name. By a match: two orders share each number, which no derive says.
    #[tactic(auto, unfolding(crate::specs::Picture::letters_of, crate::specs::Picture::channels_of))]
    pub fn get_channels_count(self) -> usize
        ensures { result ≡ channels_of self }
    {
        match self {
            YuvSourceChannels::Rgb | YuvSourceChannels::Bgr => 3,
            YuvSourceChannels::Rgba | YuvSourceChannels::Bgra => 4,
        }
    }
}

// Which bits of its element a sample stands in: the low ones or the high ones.
#[derive(Clone, Copy, Debug, PartialEq, Eq)]
pub enum YuvBytesPacking {
    LeastSignificantBytes,
    MostSignificantBytes,
}

// Two departures of the source, kept or put right: the two-row tail of Cr, and `Smpte240` at 8 bits.
#[derive(Clone, Copy, Debug, PartialEq, Eq)]
pub enum YuvMode {
    AsSource,
    Matched,
}

// The weights kr and kb of a matrix.
#[derive(Clone, Copy, Debug, PartialEq)]
pub struct YuvBias {
    pub kr: f32,
    pub kb: f32,
}

// The five coefficients before they are scaled by 8192 and rounded.
#[derive(Clone, Copy, Debug, PartialEq)]
pub struct InverseTransformF32 {
    pub y: f32,
    pub cr: f32,
    pub cb: f32,
    pub g1: f32,
    pub g2: f32,
}

// The five whole-number coefficients, times 8192.
#[derive(Clone, Copy, Debug, PartialEq, Eq)]
pub struct CbCrInverseTransform {
    pub y: u32,
    pub cr: u32,
    pub cb: u32,
    pub g1: u32,
    pub g2: u32,
}

// The biases and the ranges of luma and chroma at a depth and a range.
#[derive(Clone, Copy, Debug, PartialEq, Eq)]
pub struct YuvChromaRange {
    pub bias_y: u16,
    pub bias_uv: u16,
    pub range_y: u16,
    pub range_uv: u16,
}

// The codes and weights that a conversion is asked with: numbers, since C callers give them.
#[repr(C)]
#[derive(Clone, Copy, Debug, PartialEq)]
pub struct Codes {
    pub depth: u32,
    pub sampling: u32,
    pub order: u32,
    pub range: u32,
    pub matrix: u32,
    pub packing: u32,
    pub mode: u32,
    pub kr: f32,
    pub kb: f32,
}

// The settings of a conversion, decoded. The depth stays a number, since samples and ranges are computed from it.
#[derive(Clone, Copy, Debug, PartialEq)]
pub struct Settings {
    pub depth: u32,
    pub sampling: YuvChromaSubsampling,
    pub order: YuvSourceChannels,
    pub range: YuvRange,
    pub matrix: YuvStandardMatrix,
    pub packing: YuvBytesPacking,
    pub mode: YuvMode,
}

// The sides of a picture and the strides of its planes, as C callers give them; the planes are slices beside it.
#[repr(C)]
#[derive(Clone, Copy, Debug, PartialEq, Eq)]
pub struct Geometry {
    pub width: u32,
    pub height: u32,
    pub y_stride: u32,
    pub u_stride: u32,
    pub v_stride: u32,
}

// How many components of pixels lay below 0, and how many above the largest code, before they were clamped.
#[derive(Clone, Copy, Debug, PartialEq, Eq)]
pub struct Clipped {
    pub below: u32,
    pub above: u32,
}

// ---- what a code stands for that the questions let through; any other has the last meaning. These are public functions
// that cannot fail, and stay beside `TryFrom`: what is public promises no less than it did.

pub fn sampling_of(code: u32) -> YuvChromaSubsampling
    ensures { result ≡ sampling_of code }
{
    YuvChromaSubsampling::try_from(code).unwrap_or(YuvChromaSubsampling::Yuv422)
}

pub fn order_of(code: u32) -> YuvSourceChannels
    ensures { result ≡ order_of code }
{
    YuvSourceChannels::try_from(code).unwrap_or(YuvSourceChannels::Bgr)
}

pub fn range_of(code: u32) -> YuvRange
    ensures { result ≡ range_of code }
{
    YuvRange::try_from(code).unwrap_or(YuvRange::Full)
}

pub fn matrix_of(code: u32, kr: f32, kb: f32) -> YuvStandardMatrix
    ensures { result ≡ matrix_of code kr kb }
{
    YuvStandardMatrix::try_from(MatrixCode { code, kr, kb }).unwrap_or(YuvStandardMatrix::Custom(
        kr, kb,
    ))
}

// By a match of its own: `try_from` asks the depth too.
pub fn packing_of(code: u32) -> YuvBytesPacking
    ensures { result ≡ packing_of code }
{
    match code {
        0 => YuvBytesPacking::LeastSignificantBytes,
        _ => YuvBytesPacking::MostSignificantBytes,
    }
}

pub fn mode_of(code: u32) -> YuvMode
    ensures { result ≡ mode_of code }
{
    YuvMode::try_from(code).unwrap_or(YuvMode::Matched)
}

// The settings that the codes stand for. Codes that questions 1 and 2 refuse stand for none.
pub fn decode(codes: Codes) -> Settings
    ensures { result ≡ decoded codes }
{
    Settings {
        depth: codes.depth,
        sampling: sampling_of(codes.sampling),
        order: order_of(codes.order),
        range: range_of(codes.range),
        matrix: matrix_of(codes.matrix, codes.kr, codes.kb),
        packing: packing_of(codes.packing),
        mode: mode_of(codes.mode),
    }
}

// Whether a depth is one of 8, 10 and 12: a number and no enum, since samples and ranges are computed from it.
// No ghost field or invariant says that a depth is known: it is one named fact, `among depth depths`, of a number that C hands over, and
// `Settings` has the depths of refused calls too.
pub fn is_depth(depth: u32) -> bool
    ensures { result ≡ among depth depths }
{
    matches!(depth, 8 | 10 | 12)
}

// The last packing that is known at a depth, a code as those that are asked: a byte has no high bits to spare.
pub fn last_packing(depth: u32) -> u32
    ensures { result ≡ last_packing depth }
{
    if depth == 8 { 0 } else { 1 }
}

// M, the largest sample of a depth.
#[tactic(auto, unfolding(crate::specs::Settings::max_of))]
pub fn max_of(depth: u32) -> u16
    requires { T (among depth depths) }
    ensures { result ≡ max_of depth }
{
    (1 << depth) - 1
}

// The biases and ranges at a depth. Depth and range stay two parameters, as in `kernel`, whose head says why.
#[tactic(auto, unfolding(crate::specs::Settings::max_of, crate::specs::Settings::bias_y, crate::specs::Settings::bias_c, crate::specs::Settings::range_y, crate::specs::Settings::range_c))]
pub fn get_yuv_range(depth: u32, range: YuvRange) -> YuvChromaRange
    requires { T (among depth depths) }
    ensures { result ≡ chroma_range_of depth range }
{
    match range {
        YuvRange::Limited => YuvChromaRange {
            bias_y: 16 << (depth - 8),
            bias_uv: 1 << (depth - 1),
            range_y: 219 << (depth - 8),
            range_uv: 224 << (depth - 8),
        },
        YuvRange::Full => YuvChromaRange {
            bias_y: 0,
            bias_uv: 1 << (depth - 1),
            range_y: max_of(depth),
            range_uv: max_of(depth),
        },
    }
}
