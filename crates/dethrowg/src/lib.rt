// The exported C functions: the public entries, by C names, for hosts that link the static library (include/dethrowg.h).
// Each hands on to one entry and promises what that entry promises. Nothing is asked of the caller beyond what the header says of pointers.
// One export for each width: C has no generics, and a macro may not write exports.
#![tactic(auto)]

ghost use Rattle.std.specs.Prelude.{◌≡◌, length};
ghost use Rattle.yuv_support.specs.Settings.{depths8, depths16};
ghost use Rattle.yuv_support.specs.Counts.{unclipped};
ghost use Rattle.yuv_support.specs.Distance.{AnySamples, WithinIfLow};
ghost use Rattle.yuv_support.specs.Conversion.{answer_to, clipped_after, destination_after, Demand3After, answer_to_band, rows_after, clipped_after_band, destination_after_band, Demand3AfterBand};
ghost use Rattle.yuv_error.specs.Told.{as_report, as_band_report};
ghost use Rattle.settings_used.specs.Used.{settings_used_of};
ghost use Rattle.row_readers.specs.Readers.{extent_of, row_place, chroma_row_place};
ghost use Rattle.y4m_frames.specs.Questions.{lengths_of, strides};
ghost use Rattle.y4m.specs.Reading.{header_told, frame_told, y_after, u_after, v_after};
ghost use Rattle.y4m.specs.Writing.{header_written, after_header, frame_written, after_frame};
ghost use Rattle.planes.specs.Woven.{lent};
ghost use Rattle.weave.specs.Weaving.{weave_answer, after_weaving, u_after_unweaving, v_after_unweaving};

use images::YuvPlanarImage;
use row_readers::Part;
use sample::plane::{Plane, PlaneMut, Size};
use settings_used::SettingsUsed;
use y4m::{Written, Y4mFrame};
use yuv_error::report::{answer_alone, band_report_of, report_of};
use yuv_error::{BandReport, Report};
use yuv_support::{Codes, Geometry};
use yuv_to_rgba_bilinear::{yuv_to_rgbx_band, yuv_to_rgbx_bilinear};

// The settings used at any codes and weights.
#[unsafe(no_mangle)]
pub extern "C" fn dethrowg_coefficients(codes: Codes) -> SettingsUsed
    ensures { result ≡ settings_used_of codes }
{
    settings_used::settings_used(codes)
}

// A conversion of byte planes.
#[unsafe(no_mangle)]
pub extern "C" fn dethrowg_yuv8_to_rgb(
    codes: Codes,
    image: Geometry,
    y: &[u8],
    u: &[u8],
    v: &[u8],
    rgb: &mut [u8],
    rgb_stride: u32,
) -> Report
    ensures answer { result
        ≡ as_report
        (answer_to depths8 codes image y.now u.now v.now rgb_stride rgb.old)
        (clipped_after depths8 codes image y.now u.now v.now rgb_stride rgb.old) }
    ensures destination { rgb.new
        ≡ destination_after depths8 codes image y.now u.now v.now rgb_stride rgb.old }
    ensures faithful { Demand3After AnySamples
        depths8 codes image y.now u.now v.now rgb_stride rgb.old rgb.new }
{
    let picture = YuvPlanarImage::with_planes(image, y, u, v);
    report_of(yuv_to_rgbx_bilinear::<u8>(&picture, codes, rgb, rgb_stride))
}

// A conversion of u16 planes of 10 or 12 bits.
#[unsafe(no_mangle)]
pub extern "C" fn dethrowg_yuv16_to_rgb(
    codes: Codes,
    image: Geometry,
    y: &[u16],
    u: &[u16],
    v: &[u16],
    rgb: &mut [u16],
    rgb_stride: u32,
) -> Report
    ensures answer { result
        ≡ as_report
        (answer_to depths16 codes image y.now u.now v.now rgb_stride rgb.old)
        (clipped_after depths16 codes image y.now u.now v.now rgb_stride rgb.old) }
    ensures destination { rgb.new
        ≡ destination_after depths16 codes image y.now u.now v.now rgb_stride rgb.old }
    ensures faithful { Demand3After WithinIfLow
        depths16 codes image y.now u.now v.now rgb_stride rgb.old rgb.new }
{
    let picture = YuvPlanarImage::with_planes(image, y, u, v);
    report_of(yuv_to_rgbx_bilinear::<u16>(&picture, codes, rgb, rgb_stride))
}

// A band of rows of byte planes.
#[unsafe(no_mangle)]
pub extern "C" fn dethrowg_yuv8_to_rgb_band(
    codes: Codes,
    image: Geometry,
    y: &[u8],
    u: &[u8],
    v: &[u8],
    rgb: &mut [u8],
    rgb_stride: u32,
    first: u32,
    limit: u32,
) -> BandReport
    ensures answer { result
        ≡ as_band_report
        (answer_to_band depths8 codes image y.now u.now v.now rgb_stride rgb.old first)
        (clipped_after_band depths8 codes image y.now u.now v.now rgb_stride rgb.old first limit)
        first
        (rows_after depths8 codes image y.now u.now v.now rgb_stride rgb.old first limit) }
    ensures destination { rgb.new
        ≡ destination_after_band depths8 codes image y.now u.now v.now rgb_stride rgb.old first limit }
    ensures faithful { Demand3AfterBand AnySamples
        depths8 codes image y.now u.now v.now rgb_stride rgb.old first limit rgb.new }
{
    let picture = YuvPlanarImage::with_planes(image, y, u, v);
    let band = yuv_to_rgbx_band::<u8>(&picture, codes, rgb, rgb_stride, first, limit);
    band_report_of(band, first)
}

// A band of rows of u16 planes of 10 or 12 bits.
#[unsafe(no_mangle)]
pub extern "C" fn dethrowg_yuv16_to_rgb_band(
    codes: Codes,
    image: Geometry,
    y: &[u16],
    u: &[u16],
    v: &[u16],
    rgb: &mut [u16],
    rgb_stride: u32,
    first: u32,
    limit: u32,
) -> BandReport
    ensures answer { result
        ≡ as_band_report
        (answer_to_band depths16 codes image y.now u.now v.now rgb_stride rgb.old first)
        (clipped_after_band depths16 codes image y.now u.now v.now rgb_stride rgb.old first limit)
        first
        (rows_after depths16 codes image y.now u.now v.now rgb_stride rgb.old first limit) }
    ensures destination { rgb.new
        ≡ destination_after_band depths16 codes image y.now u.now v.now rgb_stride rgb.old first limit }
    ensures faithful { Demand3AfterBand WithinIfLow
        depths16 codes image y.now u.now v.now rgb_stride rgb.old first limit rgb.new }
{
    let picture = YuvPlanarImage::with_planes(image, y, u, v);
    let band = yuv_to_rgbx_band::<u16>(&picture, codes, rgb, rgb_stride, first, limit);
    band_report_of(band, first)
}

// Where the finished row stands in a destination of u8 elements.
#[unsafe(no_mangle)]
pub extern "C" fn dethrowg_row8(
    order: u32,
    width: u32,
    height: u32,
    rgb: &[u8],
    rgb_stride: u32,
    row: u32,
) -> Part
    ensures { result ≡ row_place order width height (extent_of rgb.now rgb_stride) row }
{
    let rgb = Plane {
        elements: rgb,
        stride: rgb_stride,
    };
    row_readers::finished_row_part::<u8>(order, Size { width, height }, rgb, row)
}

// Where a luma row's near chroma row stands in the U plane or the V plane, of u8 elements.
#[unsafe(no_mangle)]
pub extern "C" fn dethrowg_chroma_row8(
    sampling: u32,
    plane: u32,
    width: u32,
    height: u32,
    u: &[u8],
    u_stride: u32,
    v: &[u8],
    v_stride: u32,
    row: u32,
) -> Part
    ensures { result
        ≡ chroma_row_place sampling plane width height (extent_of u.now u_stride)
        (extent_of v.now v_stride) row }
{
    let u = Plane {
        elements: u,
        stride: u_stride,
    };
    let v = Plane {
        elements: v,
        stride: v_stride,
    };
    row_readers::near_chroma_row_part::<u8>(sampling, plane, Size { width, height }, u, v, row)
}

// Where the finished row stands in a destination of u16 elements.
#[unsafe(no_mangle)]
pub extern "C" fn dethrowg_row16(
    order: u32,
    width: u32,
    height: u32,
    rgb: &[u16],
    rgb_stride: u32,
    row: u32,
) -> Part
    ensures { result ≡ row_place order width height (extent_of rgb.now rgb_stride) row }
{
    let rgb = Plane {
        elements: rgb,
        stride: rgb_stride,
    };
    row_readers::finished_row_part::<u16>(order, Size { width, height }, rgb, row)
}

// Where a luma row's near chroma row stands in the U plane or the V plane, of u16 elements.
#[unsafe(no_mangle)]
pub extern "C" fn dethrowg_chroma_row16(
    sampling: u32,
    plane: u32,
    width: u32,
    height: u32,
    u: &[u16],
    u_stride: u32,
    v: &[u16],
    v_stride: u32,
    row: u32,
) -> Part
    ensures { result
        ≡ chroma_row_place sampling plane width height (extent_of u.now u_stride)
        (extent_of v.now v_stride) row }
{
    let u = Plane {
        elements: u,
        stride: u_stride,
    };
    let v = Plane {
        elements: v,
        stride: v_stride,
    };
    row_readers::near_chroma_row_part::<u16>(sampling, plane, Size { width, height }, u, v, row)
}

// The header of a YUV4MPEG2 stream.
#[unsafe(no_mangle)]
pub extern "C" fn dethrowg_y4m_header(stream: &[u8]) -> Y4mFrame
    ensures { result ≡ header_told stream.now }
{
    y4m::header(stream)
}

// The frame at a place of a stream, into planes of bytes.
#[unsafe(no_mangle)]
pub extern "C" fn dethrowg_y4m_read8(
    stream: &[u8],
    place: u64,
    y: &mut [u8],
    y_stride: u32,
    u: &mut [u8],
    u_stride: u32,
    v: &mut [u8],
    v_stride: u32,
) -> Y4mFrame
    ensures answer { result
        ≡ frame_told 1 stream.now place (strides y_stride u_stride v_stride)
        (lengths_of y.old u.old v.old) }
    ensures y_plane { y.new
        ≡ y_after 1 stream.now place (strides y_stride u_stride v_stride)
        (lengths_of y.old u.old v.old) y.old }
    ensures u_plane { u.new
        ≡ u_after 1 stream.now place (strides y_stride u_stride v_stride)
        (lengths_of y.old u.old v.old) u.old }
    ensures v_plane { v.new
        ≡ v_after 1 stream.now place (strides y_stride u_stride v_stride)
        (lengths_of y.old u.old v.old) v.old }
{
    let y = PlaneMut {
        elements: y,
        stride: y_stride,
    };
    let u = PlaneMut {
        elements: u,
        stride: u_stride,
    };
    let v = PlaneMut {
        elements: v,
        stride: v_stride,
    };
    y4m::read::<u8>(stream, place, y, u, v)
}

// The frame at a place of a stream, into u16 planes.
#[unsafe(no_mangle)]
pub extern "C" fn dethrowg_y4m_read16(
    stream: &[u8],
    place: u64,
    y: &mut [u16],
    y_stride: u32,
    u: &mut [u16],
    u_stride: u32,
    v: &mut [u16],
    v_stride: u32,
) -> Y4mFrame
    ensures answer { result
        ≡ frame_told 2 stream.now place (strides y_stride u_stride v_stride)
        (lengths_of y.old u.old v.old) }
    ensures y_plane { y.new
        ≡ y_after 2 stream.now place (strides y_stride u_stride v_stride)
        (lengths_of y.old u.old v.old) y.old }
    ensures u_plane { u.new
        ≡ u_after 2 stream.now place (strides y_stride u_stride v_stride)
        (lengths_of y.old u.old v.old) u.old }
    ensures v_plane { v.new
        ≡ v_after 2 stream.now place (strides y_stride u_stride v_stride)
        (lengths_of y.old u.old v.old) v.old }
{
    let y = PlaneMut {
        elements: y,
        stride: y_stride,
    };
    let u = PlaneMut {
        elements: u,
        stride: u_stride,
    };
    let v = PlaneMut {
        elements: v,
        stride: v_stride,
    };
    y4m::read::<u16>(stream, place, y, u, v)
}

// The header of a stream, written.
#[unsafe(no_mangle)]
pub extern "C" fn dethrowg_y4m_write_header(
    sampling: u32,
    depth: u32,
    width: u32,
    height: u32,
    out: &mut [u8],
) -> Written
    ensures answer { result ≡ header_written sampling depth width height (length out.old) }
    ensures output { out.new ≡ after_header sampling depth width height out.old }
{
    y4m::write_header(sampling, depth, Size { width, height }, out)
}

// A frame of byte planes, written.
#[unsafe(no_mangle)]
pub extern "C" fn dethrowg_y4m_write_frame8(
    sampling: u32,
    depth: u32,
    image: Geometry,
    y: &[u8],
    u: &[u8],
    v: &[u8],
    out: &mut [u8],
) -> Written
    ensures answer { result
        ≡ frame_written 1 sampling depth image (lengths_of y.now u.now v.now)
        (length out.old) }
    ensures output { out.new
        ≡ after_frame 1 sampling depth image (lengths_of y.now u.now v.now)
        y.now u.now v.now out.old }
{
    let image = YuvPlanarImage::with_planes(image, y, u, v);
    y4m::write_frame::<u8>(sampling, depth, &image, out)
}

// A frame of u16 planes, written.
#[unsafe(no_mangle)]
pub extern "C" fn dethrowg_y4m_write_frame16(
    sampling: u32,
    depth: u32,
    image: Geometry,
    y: &[u16],
    u: &[u16],
    v: &[u16],
    out: &mut [u8],
) -> Written
    ensures answer { result
        ≡ frame_written 2 sampling depth image (lengths_of y.now u.now v.now)
        (length out.old) }
    ensures output { out.new
        ≡ after_frame 2 sampling depth image (lengths_of y.now u.now v.now)
        y.now u.now v.now out.old }
{
    let image = YuvPlanarImage::with_planes(image, y, u, v);
    y4m::write_frame::<u16>(sampling, depth, &image, out)
}

// U and V of bytes, woven into one plane.
#[unsafe(no_mangle)]
pub extern "C" fn dethrowg_weave8(
    width: u32,
    height: u32,
    u: &[u8],
    u_stride: u32,
    v: &[u8],
    v_stride: u32,
    uv: &mut [u8],
    uv_stride: u32,
) -> Report
    ensures answer { result
        ≡ as_report (weave_answer width height
        (lent u.now u_stride) (lent v.now v_stride) (lent uv.old uv_stride)) unclipped }
    ensures woven { uv.new
        ≡ after_weaving width height (lent u.now u_stride) (lent v.now v_stride)
        (lent uv.old uv_stride) }
{
    let u = Plane {
        elements: u,
        stride: u_stride,
    };
    let v = Plane {
        elements: v,
        stride: v_stride,
    };
    let uv = PlaneMut {
        elements: uv,
        stride: uv_stride,
    };
    answer_alone(weave::weave::<u8>(uv, u, v, Size { width, height }))
}

// A woven plane of bytes, taken apart into U and V.
#[unsafe(no_mangle)]
pub extern "C" fn dethrowg_unweave8(
    width: u32,
    height: u32,
    uv: &[u8],
    uv_stride: u32,
    u: &mut [u8],
    u_stride: u32,
    v: &mut [u8],
    v_stride: u32,
) -> Report
    ensures answer { result
        ≡ as_report (weave_answer width height
        (lent u.old u_stride) (lent v.old v_stride) (lent uv.now uv_stride)) unclipped }
    ensures u_plane { u.new
        ≡ u_after_unweaving width height (lent u.old u_stride) (lent v.old v_stride)
        (lent uv.now uv_stride) }
    ensures v_plane { v.new
        ≡ v_after_unweaving width height (lent u.old u_stride) (lent v.old v_stride)
        (lent uv.now uv_stride) }
{
    let uv = Plane {
        elements: uv,
        stride: uv_stride,
    };
    let u = PlaneMut {
        elements: u,
        stride: u_stride,
    };
    let v = PlaneMut {
        elements: v,
        stride: v_stride,
    };
    answer_alone(weave::unweave::<u8>(uv, u, v, Size { width, height }))
}

// U and V of u16, woven into one plane.
#[unsafe(no_mangle)]
pub extern "C" fn dethrowg_weave16(
    width: u32,
    height: u32,
    u: &[u16],
    u_stride: u32,
    v: &[u16],
    v_stride: u32,
    uv: &mut [u16],
    uv_stride: u32,
) -> Report
    ensures answer { result
        ≡ as_report (weave_answer width height
        (lent u.now u_stride) (lent v.now v_stride) (lent uv.old uv_stride)) unclipped }
    ensures woven { uv.new
        ≡ after_weaving width height (lent u.now u_stride) (lent v.now v_stride)
        (lent uv.old uv_stride) }
{
    let u = Plane {
        elements: u,
        stride: u_stride,
    };
    let v = Plane {
        elements: v,
        stride: v_stride,
    };
    let uv = PlaneMut {
        elements: uv,
        stride: uv_stride,
    };
    answer_alone(weave::weave::<u16>(uv, u, v, Size { width, height }))
}

// A woven plane of u16, taken apart into U and V.
#[unsafe(no_mangle)]
pub extern "C" fn dethrowg_unweave16(
    width: u32,
    height: u32,
    uv: &[u16],
    uv_stride: u32,
    u: &mut [u16],
    u_stride: u32,
    v: &mut [u16],
    v_stride: u32,
) -> Report
    ensures answer { result
        ≡ as_report (weave_answer width height
        (lent u.old u_stride) (lent v.old v_stride) (lent uv.now uv_stride)) unclipped }
    ensures u_plane { u.new
        ≡ u_after_unweaving width height (lent u.old u_stride) (lent v.old v_stride)
        (lent uv.now uv_stride) }
    ensures v_plane { v.new
        ≡ v_after_unweaving width height (lent u.old u_stride) (lent v.old v_stride)
        (lent uv.now uv_stride) }
{
    let uv = Plane {
        elements: uv,
        stride: uv_stride,
    };
    let u = PlaneMut {
        elements: u,
        stride: u_stride,
    };
    let v = PlaneMut {
        elements: v,
        stride: v_stride,
    };
    answer_alone(weave::unweave::<u16>(uv, u, v, Size { width, height }))
}
