// Planar Y, Cb, Cr to RGB, RGBA, BGRA or BGR, with bilinear chroma: the public conversion of a band
// of rows, and of the whole picture, of byte samples and of u16 samples of 10 or 12 bits in the low
// or in the high bits. Nothing is asked of the caller. A call that a question refuses changes no
// buffer; an accepted one leaves the finished rows.
// `rgb` and `rgb_stride` stay two parameters: the head of `convert` says why.
#![tactic(auto)]

ghost use Rattle.std.specs.Prelude.{◌≡◌, ◌+◌};
ghost use Rattle.yuv_error.specs.Told.{answered, clipped_of, band_clipped_of, rows_of, next_of};
ghost use Rattle.yuv_to_rgba_bilinear.specs.Lent.{answer_of, clipped_of_picture, finished_picture, FaithfulPicture, band_answer_of, rows_of_band, clipped_of_band, finished_band, FaithfulRows};

use convert::Rows;
use elements::Element;
use images::YuvPlanarImage;
use yuv_error::{Band, YuvError};
use yuv_support::{Clipped, Codes};

// A band: rows from row `first` on, at most `limit` of them, an even number unless they reach the
// last row. Codes, sides and strides are judged with the lengths of the four buffers by questions 1
// to 13 and then 19, in that order; the first "no" is the error. Strides count elements. Buffers may
// be longer than needed; what is not a pixel of these rows is kept. The distance asks that u16
// samples in the low bits are within the depth, and nothing of bytes and of samples in the high bits.
pub fn yuv_to_rgbx_band<S: Element>(
    image: &YuvPlanarImage<'_, S>,
    codes: Codes,
    rgb: &mut [S],
    rgb_stride: u32,
    first: u32,
    limit: u32,
) -> Result<Band, YuvError>
    ensures answer { answered result
        ≡ band_answer_of S.numbers S.known codes image.now rgb_stride rgb.old first }
    ensures rows { rows_of result
        ≡ rows_of_band S.numbers S.known codes image.now rgb_stride rgb.old first limit }
    ensures next { next_of first result
        ≡ first + rows_of_band S.numbers S.known codes image.now rgb_stride rgb.old first limit }
    ensures counts { band_clipped_of result
        ≡ clipped_of_band S.numbers S.known codes image.now rgb_stride rgb.old first limit }
    ensures destination { S.numbers rgb.new
        ≡ finished_band S.numbers S.known codes image.now rgb_stride rgb.old first limit }
    ensures faithful { FaithfulRows S.asked
        S.numbers S.known codes image.now rgb_stride rgb.old first limit rgb.new }
{
    let s = image.check_band(codes, rgb.len(), rgb_stride, first)?;
    let rows = Rows {
        first,
        count: images::band_rows(image.height, first, limit),
    };
    S::samples_fit(image.y_plane);
    S::samples_fit(image.u_plane);
    S::samples_fit(image.v_plane);
    let next = first + rows.count;
    let clipped = S::convert_rows_of(rgb, rgb_stride, image, s, rows);
    Ok(Band {
        rows: rows.count,
        clipped,
        next,
    })
}

// The whole picture: the band from row 0 with the height as limit. Questions 1 to 13 are asked; 19
// holds of row 0.
#[tactic(auto, using(crate::proofs::Lent::whole_told))]
pub fn yuv_to_rgbx_bilinear<S: Element>(
    image: &YuvPlanarImage<'_, S>,
    codes: Codes,
    rgb: &mut [S],
    rgb_stride: u32,
) -> Result<Clipped, YuvError>
    ensures answer { answered result
        ≡ answer_of S.numbers S.known codes image.now rgb_stride rgb.old }
    ensures counts { clipped_of result
        ≡ clipped_of_picture S.numbers S.known codes image.now rgb_stride rgb.old }
    ensures destination { S.numbers rgb.new
        ≡ finished_picture S.numbers S.known codes image.now rgb_stride rgb.old }
    ensures faithful { FaithfulPicture S.asked
        S.numbers S.known codes image.now rgb_stride rgb.old rgb.new }
{
    let band = yuv_to_rgbx_band(image, codes, rgb, rgb_stride, 0, image.height)?;
    Ok(band.clipped)
}
