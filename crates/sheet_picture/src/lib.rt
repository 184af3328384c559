// The picture of a sheet: its samples converted by the public entry, and the table that is written of it and of what was clipped in it:
// here as a `Page`, and in the module `lent`, by which the sheet goes, into the lent output.
#![tactic(auto)]

ghost use Rattle.std.specs.Prelude.{◌≡◌, ◌≤◌, length, take, T};
ghost use Rattle.yuv_support.specs.Settings.{among, depths};
ghost use Rattle.yuv_support.specs.Counts.{clipped_in};
ghost use Rattle.yuv_support.specs.Questions.{decoded};
ghost use Rattle.yuv_support.specs.Conversion.{clipped_after, destination_after};
ghost use Rattle.images.specs.Lent.{geometry};
ghost use Rattle.sheet_values.specs.Values.{codes_of, widest};
ghost use Rattle.sheet_table.specs.Table.{table};
ghost use Rattle.sheet_table.specs.Shown.{Shows};
ghost use Rattle.sheet_picture.specs.Samples.{Fit, Most, Samples, planes_frame};

use elements::Element;
use images::YuvPlanarImage;
use sheet_table::Page;
use sheet_table::shape::Shape;
use sheet_values::Known;
use yuv_support::{Clipped, Codes, Geometry};
use yuv_to_rgba_bilinear::yuv_to_rgbx_bilinear;

pub mod lent;

// The samples of a sheet as they are read: the first ones of each array. The library uses no heap, so the arrays have room for 64 by 64.
#[derive(Drop)]
pub struct Planes {
    pub y: [u32; 4096],
    pub u: [u32; 4096],
    pub v: [u32; 4096],
}

// A sheet whose questions are answered.
#[derive(Drop)]
pub struct Sheet {
    pub known: Known,
    pub planes: Planes,
    pub ghost fit: { Fit depths known.values },
    pub ghost samples: { Samples (widest known.values) known.values planes.y planes.u planes.v },
}

// The first n numbers as samples.
fn narrow<'a, S: Element>(numbers: &[u32], n: usize, plane: &'a mut [S; 4096]) -> &'a [S]
    requires count { n ≤ 4096 }
    requires samples { Most S.most n numbers.now }
    requires wide { S.most ≤ 65535 }
    ensures { S.numbers result.now ≡ take n numbers.now }
{
    // By number: of what a loop over a zip with `iter_mut` writes nothing is known.
    for (i, number) in numbers[..n].iter().enumerate() {
        sample::write(plane, i, *number as u16);
    }
    &plane[..n]
}

// The public entry. A refused call clips nothing. `rgb` and `stride` are no `PlaneMut`: the head of `convert` says why.
fn convert<S: Element>(
    picture: &YuvPlanarImage<'_, S>,
    codes: Codes,
    rgb: &mut [S],
    stride: u32,
) -> Clipped
    ensures counts { result
        ≡ clipped_after S.known codes (geometry picture.now) (S.numbers picture.now.y_plane.now)
        (S.numbers picture.now.u_plane.now) (S.numbers picture.now.v_plane.now) stride
        (S.numbers rgb.old) }
    ensures destination { S.numbers rgb.new
        ≡ destination_after S.known codes (geometry picture.now) (S.numbers picture.now.y_plane.now)
        (S.numbers picture.now.u_plane.now) (S.numbers picture.now.v_plane.now) stride
        (S.numbers rgb.old) }
{
    let nothing = Clipped { below: 0, above: 0 };
    yuv_to_rgbx_bilinear(picture, codes, rgb, stride).unwrap_or(nothing)
}

// The picture from elements of one width; the answer is what was clipped in it. Arrays, as in `Planes`, since the library uses no heap.
fn picture_at<S: Element>(known: Known, y: &[u32], u: &[u32], w: &[u32], rgb: &mut [S]) -> Clipped
    requires fit { Fit S.known known.values }
    requires samples { Samples S.most known.values y.now u.now w.now }
    requires wide { S.most ≤ 65535 }
    requires long { length rgb.old ≡ 16384 }
    ensures shows { Shows (decoded (codes_of known.values))
        (planes_frame known.values y.now u.now w.now) (S.numbers rgb.new) }
    ensures counts { result
        ≡ clipped_in (decoded (codes_of known.values))
        (planes_frame known.values y.now u.now w.now) 0 known.values.height }
{
    let v = known.values;
    let chroma = known.chroma_count();
    let zero = S::from_u16(0);
    let (mut samples, mut cb, mut cr) = ([zero; 4096], [zero; 4096], [zero; 4096]);
    let luma = narrow(y, v.luma_count(), &mut samples);
    let blue = narrow(u, chroma, &mut cb);
    let red = narrow(w, chroma, &mut cr);
    let picture = YuvPlanarImage::with_planes(Geometry::from(v), luma, blue, red);
    let stride = images::row_length(v.width, known.settings.order);
    convert(&picture, Codes::from(v), rgb, stride)
}

// The table of a picture with elements of one width.
fn table_at<S: Element>(known: Known, planes: &Planes) -> Page
    requires fit { Fit S.known known.values }
    requires samples { Samples S.most known.values planes.now.y planes.now.u planes.now.v }
    requires wide { S.most ≤ 65535 }
    ensures { result.items
        ≡ table (decoded (codes_of known.values))
        (planes_frame known.values planes.now.y planes.now.u planes.now.v) }
{
    let shape = Shape {
        order: known.settings.order,
        width: known.values.width,
        height: known.values.height,
    };
    let mut rgb = [S::from_u16(0); 16384];
    let clipped = picture_at(known, &planes.y, &planes.u, &planes.v, &mut rgb);
    sheet_table::table_of(&rgb, shape, clipped)
}

// The table of the picture with its last line: from bytes at depth 8, else from elements of 16 bits.
pub fn table_of(sheet: &Sheet) -> Page
    ensures { result.items
        ≡ table (decoded (codes_of sheet.now.known.values))
        (planes_frame sheet.now.known.values sheet.now.planes.y sheet.now.planes.u
        sheet.now.planes.v) }
{
    if sheet.known.values.depth == 8 {
        return table_at::<u8>(sheet.known, &sheet.planes);
    }
    table_at::<u16>(sheet.known, &sheet.planes)
}
