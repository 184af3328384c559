// The geometry of a planar picture; the picture with its planes; and the questions of a call in document 01's order: of a conversion, of a
// band, and of each reader. A question is asked only where those before it held, so a later one may use what they said.
#![tactic(auto)]

ghost use Rattle.std.specs.Prelude.{◌≡◌, ◌+◌, ◌*◌, ◌≤◌, ◌<◌, length, take, drop};
ghost use Rattle.yuv_support.specs.Blend.{chroma_width, chroma_height, next_row, near_row};
ghost use Rattle.yuv_support.specs.Picture.{channels_of, band_rows};
ghost use Rattle.images.specs.Rows.{other_row, chroma_rows};

pub mod calls;
pub mod picture;
pub mod planes;

pub use crate::calls::{
    ChromaRow, check_band, check_chroma_row, check_codes, check_codes_where, check_conversion,
    check_row, check_sampling, check_settings, decode,
};
pub use crate::picture::YuvPlanarImage;
pub use crate::planes::{ChromaPlane, check_constraints};
use sample::plane::{Plane, Size};
use yuv_support::{YuvChromaSubsampling, YuvSourceChannels};

// How many elements the four buffers have; `rgb` is 0 where a call has no destination, and is not asked of there. No `Buffer`s, which would
// have the strides too: C gives strides and lengths apart, the strides in `Geometry`.
#[derive(Clone, Copy)]
pub struct Lengths {
    pub y: u64,
    pub u: u64,
    pub v: u64,
    pub rgb: u64,
}

// ⌈width/2⌉
pub fn chroma_width(width: u32) -> u32
    ensures { result ≡ chroma_width width }
{
    width.div_ceil(2)
}

// ⌈height/2⌉ in 4:2:0, else the height.
#[tactic(auto, unfolding(yuv_support::specs::Blend::chroma_height))]
pub fn chroma_height(sampling: YuvChromaSubsampling, height: u32) -> u32
    ensures { result ≡ chroma_height sampling height }
{
    match sampling {
        YuvChromaSubsampling::Yuv420 => height.div_ceil(2),
        YuvChromaSubsampling::Yuv422 => height,
    }
}

// The size of a chroma plane, from that of the luma plane.
pub fn chroma_size(sampling: YuvChromaSubsampling, size: Size) -> Size
    ensures { result
        ≡ record {
          width = chroma_width size.width;
          height = chroma_height sampling size.height;
        } }
{
    Size {
        width: chroma_width(size.width),
        height: chroma_height(sampling, size.height),
    }
}

// In 4:2:0: the chroma row after the one that lies at a luma row, or the last one.
fn next_row(height: u32, row: u32) -> u32
    ensures { result ≡ next_row height row }
{
    let next = row / 2 + 1;
    let last = height.div_ceil(2).saturating_sub(1);
    next.min(last)
}

// The near chroma row of a luma row.
#[tactic(auto, unfolding(yuv_support::specs::Blend::near_row))]
pub fn near_row(sampling: YuvChromaSubsampling, height: u32, row: u32) -> u32
    ensures { result ≡ near_row sampling height row }
{
    match sampling {
        YuvChromaSubsampling::Yuv420 => {
            if row % 2 == 0 {
                row / 2
            } else {
                next_row(height, row)
            }
        }
        YuvChromaSubsampling::Yuv422 => row,
    }
}

// The far chroma row of a luma row; where it blends only one chroma row, that one again.
// Apart from `near_row`, which the readers call alone, as its definition is. `sampling`, `height` and `row` are the parameters of both
// definitions, and no struct: `chroma_rows` alone has the width too.
#[tactic(auto, using(crate::proofs::Rows::other_of_even, crate::proofs::Rows::other_of_odd, crate::proofs::Rows::other_of_422))]
fn other_row(sampling: YuvChromaSubsampling, height: u32, row: u32) -> u32
    requires { row < height }
    ensures { result ≡ other_row sampling height row }
{
    match sampling {
        YuvChromaSubsampling::Yuv420 => {
            if row % 2 == 0 {
                next_row(height, row)
            } else {
                row / 2
            }
        }
        YuvChromaSubsampling::Yuv422 => row,
    }
}

// The chroma that a luma row blends: its near and its other chroma row, and how many samples each has.
#[derive(Clone, Copy)]
pub struct ChromaRows {
    pub near: u32,
    pub other: u32,
    pub columns: u32,
}

pub fn chroma_rows(sampling: YuvChromaSubsampling, size: Size, row: u32) -> ChromaRows
    requires { row < size.height }
    ensures { result ≡ chroma_rows sampling size.width size.height row }
{
    ChromaRows {
        near: near_row(sampling, size.height, row),
        other: other_row(sampling, size.height, row),
        columns: chroma_width(size.width),
    }
}

// The first n elements of a row of a plane. A public function, which stays beside `Plane::row`: it takes a plane and its stride apart, as
// `YuvPlanarImage` has them.
pub fn row<T: Copy>(plane: &[T], stride: u32, row: u32, n: u32) -> &[T]
    requires { stride * row + n ≤ length plane.now }
    ensures { result.now ≡ take n (drop (stride * row) plane.now) }
{
    let lent = Plane {
        elements: plane,
        stride,
    };
    lent.row(row, n)
}

// width·channels
#[tactic(auto, using(yuv_support::proofs::Picture::three_or_four_channels))]
pub fn row_length(width: u32, order: YuvSourceChannels) -> u32
    requires { width ≤ 16384 }
    ensures { result ≡ width * channels_of order }
{
    width * order.get_channels_count() as u32
}

// How many rows a band has, from row `first` on: no more than the limit and the rows left, and an even number unless it reaches the last row.
#[tactic(auto, unfolding(yuv_support::specs::Picture::band_rows))]
pub fn band_rows(height: u32, first: u32, limit: u32) -> u32
    requires { first ≤ height }
    ensures { result ≡ band_rows height first limit }
{
    let left = height - first;
    if left <= limit {
        left
    } else {
        limit - limit % 2
    }
}
