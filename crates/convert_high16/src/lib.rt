// The rows of a picture whose u16 samples are in the high bits: unpacked into buffers that are made
// once, by the width, then converted as any other row.
// A chroma row serves up to four luma rows of 4:2:0, so it is held until a later one of its parity
// takes its place.
// `shift < 16` and `columns ≤ COLUMNS` stay clauses: of the seven functions that take `shift`, five
// are below those of `Buffers`, and would take it all the same if it were a field there; and one
// size of array serves every width up to it.
// `rgb`, `stride`, `image`, `s` and `rows` stay five parameters: the head of `convert` says why.
// What finds and describes a row's samples is put into `convert_row` whole (`inline(always)`): narrow
// rows are over before the calls have paid.
#![tactic(auto)]

ghost use Rattle.std.specs.Prelude.{◌≡◌, ℕ, ◌*◌, ◌/◌, ◌%◌, ◌^◌, ◌≤◌, ◌<◌, T, length, take, Some, None};
ghost use Rattle.yuv_support.specs.declared.YuvBytesPacking.TheVariants.{MostSignificantBytes};
ghost use Rattle.yuv_support.specs.Settings.{among, depths16};
ghost use Rattle.yuv_support.specs.Picture.{channels_of, row_of, element_of, band};
ghost use Rattle.yuv_support.specs.Counts.{clipped_row, clipped_in};
ghost use Rattle.numerics.specs.Kernel.{Words};
ghost use Rattle.kernel.specs.Kernels.{kernel_of};
ghost use Rattle.kernel.specs.Lent.{RowsFit};
ghost use Rattle.kernel.specs.Ordered.{Ready};
ghost use Rattle.convert_high16.specs.Held.{divided_by, place_of, ChromaHeld, held_row, frame};
ghost use Rattle.convert_high16.specs.Lent.{y_of, u_of, v_of, RowIn, BothIn, Neighbours, row_in, UnpackedOf, HeldOf, BothHeldOf};

use blocks::chroma::Scratch;
use convert::{
    Convert, NearAndFar, RowConverter, RowSamples, Rows, convert_each, interpolate_row,
    interpolate_row_alone,
};
use images::{ChromaRows, YuvPlanarImage};
use numerics::Kernel;
use sample::plane::Plane;
use yuv_support::{Clipped, Settings};

// A chroma row of a plane, unpacked, and its number; at first none stands here.
#[derive(Drop)]
struct HeldRow<const COLUMNS: usize> {
    number: Option<u32>,
    samples: [u16; COLUMNS],
}

// Two rows of a plane, by the parity of their numbers: neighbours have each their own place.
#[derive(Drop)]
struct HeldRows<const COLUMNS: usize> {
    even: HeldRow<COLUMNS>,
    odd: HeldRow<COLUMNS>,
}

// A luma row, unpacked, and the chroma rows held. Arrays, since the library uses no heap.
#[derive(Drop)]
struct Buffers<const WIDTH: usize, const COLUMNS: usize> {
    luma: [u16; WIDTH],
    u: HeldRows<COLUMNS>,
    v: HeldRows<COLUMNS>,
}

// The sample that stands `shift` bits higher in an element.
fn divided(element: u16, shift: u32) -> u16
    requires { shift < 16 }
    ensures { result ≡ element / 2 ^ shift }
{
    element >> shift
}

// The samples of a part, at the begin of a buffer.
fn unpack(samples: &mut [u16], part: &[u16], shift: u32)
    requires { (shift < 16) × (length part.now ≤ length samples.old) }
    ensures { take (length part.now) samples.new ≡ divided_by shift part.now }
{
    // By number: of what a loop over a zip with `iter_mut` writes nothing is known.
    for (i, element) in part.iter().enumerate() {
        samples[i] = divided(*element, shift);
    }
}

impl<const COLUMNS: usize> HeldRow<COLUMNS> {
    // None stands here.
    fn new() -> HeldRow<COLUMNS>
        ensures { result.number ≡ None }
    {
        HeldRow {
            number: None,
            samples: [0; COLUMNS],
        }
    }

    // Row c of a plane, unpacked unless it stands here.
    #[inline(always)]
    fn hold(&mut self, plane: Plane<'_, u16>, c: u32, columns: u32, shift: u32)
        requires { (shift < 16) × (columns ≤ COLUMNS) × RowIn plane c columns }
        ensures held { UnpackedOf shift columns plane.entry self.old
            → UnpackedOf shift columns plane.entry self.new }
        ensures named { self.new.number ≡ Some c }
    {
        if self.number == Some(c) {
            return;
        }
        unpack(&mut self.samples, plane.row(c, columns), shift);
        self.number = Some(c);
    }
}

impl<const COLUMNS: usize> HeldRows<COLUMNS> {
    fn new() -> HeldRows<COLUMNS>
        ensures { (result.even.number ≡ None) × (result.odd.number ≡ None) }
    {
        HeldRows {
            even: HeldRow::new(),
            odd: HeldRow::new(),
        }
    }

    // Row c of a plane, in the place of its parity.
    #[inline(always)]
    fn hold(&mut self, plane: Plane<'_, u16>, c: u32, columns: u32, shift: u32)
        requires { (shift < 16) × (columns ≤ COLUMNS) × RowIn plane c columns }
        ensures held { HeldOf shift columns plane.entry self.old
            → HeldOf shift columns plane.entry self.new }
        ensures named { (place_of self.new c).number ≡ Some c }
        ensures kept { (q : ℕ) → (q % 2 ≡ c % 2 → ⊥)
            → place_of self.new q ≡ place_of self.old q }
    {
        let parity = c % 2;
        if parity == 0 {
            self.even.hold(plane, c, columns, shift);
        } else {
            self.odd.hold(plane, c, columns, shift);
        }
    }

    // The two chroma rows of a luma row: they are neighbours or the same.
    #[inline(always)]
    fn hold_both(&mut self, plane: Plane<'_, u16>, p: ChromaRows, shift: u32)
        requires fits { (shift < 16) × (p.columns ≤ COLUMNS) }
        requires rows_exist { BothIn plane p }
        requires neighbours { Neighbours p }
        ensures held { HeldOf shift p.columns plane.entry self.old
            → HeldOf shift p.columns plane.entry self.new }
        ensures near { (place_of self.new p.near).number ≡ Some p.near }
        ensures other { (place_of self.new p.other).number ≡ Some p.other }
    {
        self.hold(plane, p.near, p.columns, shift);
        self.hold(plane, p.other, p.columns, shift);
    }

    // What stands in the place of row c.
    #[inline(always)]
    fn row(&self, c: u32, columns: u32) -> &[u16]
        requires { columns ≤ COLUMNS }
        ensures samples { result.now ≡ take columns (place_of self.now c).samples }
        ensures length { length result.now ≡ columns }
    {
        if c % 2 == 0 {
            &self.even.samples[..columns as usize]
        } else {
            &self.odd.samples[..columns as usize]
        }
    }

    // The two chroma rows of a luma row, where they are held.
    #[inline(always)]
    fn both(&self, p: ChromaRows) -> NearAndFar<'_, u16>
        requires { p.columns ≤ COLUMNS }
        ensures near { result.near.now ≡ held_row p.columns self.now p.near }
        ensures far { result.far.now ≡ held_row p.columns self.now p.other }
        ensures lengths { (length result.near.now ≡ p.columns)
            × (length result.far.now ≡ p.columns) }
    {
        NearAndFar {
            near: self.row(p.near, p.columns),
            far: self.row(p.other, p.columns),
        }
    }
}

impl<const WIDTH: usize, const COLUMNS: usize> Buffers<WIDTH, COLUMNS> {
    // No chroma row is held.
    fn new() -> Buffers<WIDTH, COLUMNS>
        ensures u { (result.u.even.number ≡ None) × (result.u.odd.number ≡ None) }
        ensures v { (result.v.even.number ≡ None) × (result.v.odd.number ≡ None) }
    {
        Buffers {
            luma: [0; WIDTH],
            u: HeldRows::new(),
            v: HeldRows::new(),
        }
    }

    // The luma samples from the begin on.
    #[inline(always)]
    fn luma_row(&self, width: u32) -> &[u16]
        requires { width ≤ WIDTH }
        ensures samples { result.now ≡ take width self.now.luma }
        ensures length { length result.now ≡ width }
    {
        &self.luma[..width as usize]
    }

    // Luma row r of a picture, unpacked.
    #[inline(always)]
    fn unpack_luma(&mut self, image: &YuvPlanarImage<'_, u16>, r: u32, shift: u32)
        requires room { (shift < 16) × (image.now.width ≤ WIDTH) }
        requires row_exists { RowIn (y_of image.now) r image.now.width }
        ensures luma { take image.now.width self.new.luma
            ≡ divided_by shift (row_in (y_of image.now) r image.now.width) }
        ensures chroma { (self.new.u ≡ self.old.u) × (self.new.v ≡ self.old.v) }
    {
        let lent = images::row(image.y_plane, image.y_stride, r, image.width);
        unpack(&mut self.luma, lent, shift);
    }

    // The chroma rows p of a picture, each in its place.
    #[inline(always)]
    fn hold_chroma(&mut self, image: &YuvPlanarImage<'_, u16>, p: ChromaRows, shift: u32)
        requires room { (shift < 16) × (p.columns ≤ COLUMNS) × Neighbours p }
        requires u_exists { BothIn (u_of image.now) p }
        requires v_exists { BothIn (v_of image.now) p }
        ensures u { HeldOf shift p.columns (u_of image.now) self.old.u
            → BothHeldOf shift p (u_of image.now) self.new.u }
        ensures v { HeldOf shift p.columns (v_of image.now) self.old.v
            → BothHeldOf shift p (v_of image.now) self.new.v }
    {
        self.u.hold_both(image.u(), p, shift);
        self.v.hold_both(image.v(), p, shift);
    }

    // The samples held of a luma row and of its chroma rows p.
    #[inline(always)]
    fn samples(&self, p: ChromaRows, width: u32) -> RowSamples<'_, u16>
        requires { (width ≤ WIDTH) × (p.columns ≤ COLUMNS) }
        ensures y { result.y.now ≡ take width self.now.luma }
        ensures u { (result.u.near.now ≡ held_row p.columns self.now.u p.near)
            × (result.u.far.now ≡ held_row p.columns self.now.u p.other) }
        ensures v { (result.v.near.now ≡ held_row p.columns self.now.v p.near)
            × (result.v.far.now ≡ held_row p.columns self.now.v p.other) }
        ensures lengths { (length result.y.now ≡ width)
            × (length result.u.near.now ≡ p.columns) × (length result.u.far.now ≡ p.columns)
            × (length result.v.near.now ≡ p.columns) × (length result.v.far.now ≡ p.columns) }
    {
        RowSamples {
            y: self.luma_row(width),
            u: self.u.both(p),
            v: self.v.both(p),
        }
    }
}

// A picture whose samples are in the high bits, of a width of up to WIDTH. It has what `LowRows`
// has, and buffers. A struct of what both have would say nothing of its own: what holds of the
// picture and of the kernel differs, and `convert_row` names each member.
#[derive(Drop)]
struct HighRows<'a, const WIDTH: usize, const COLUMNS: usize> {
    image: &'a YuvPlanarImage<'a, u16>,
    s: Settings,
    k: Kernel,
    buffers: Buffers<WIDTH, COLUMNS>,
    scratch: Scratch<u16>,
}

impl<'a, const WIDTH: usize, const COLUMNS: usize> RowConverter<u16>
    for HighRows<'a, WIDTH, COLUMNS> {
    ghost settings = { λ c. c.s };

    ghost picture = { λ c. frame c.image.now };

    ghost is_ready = { λ c. Words c.k × Ready c.s (frame c.image.now) c.k
        × (c.s.packing ≡ MostSignificantBytes)
        × (c.image.now.width ≤ WIDTH) × (WIDTH ≤ 2 * COLUMNS)
        × ChromaHeld c.s (frame c.image.now) c.buffers.u c.buffers.v };

    ghost small = { λ c ready. (ready.1.width_most, ready.1.height_most) };

    fn convert_row(&mut self, row: &mut [u16], r: u32) -> Clipped {
        let image = self.image;
        u16::samples_fit(image.u_plane);
        u16::samples_fit(image.v_plane);
        let shift = 16 - self.s.depth;
        let p = images::chroma_rows(self.s.sampling, image.size(), r);
        self.buffers.hold_chroma(image, p, shift);
        self.buffers.unpack_luma(image, r, shift);
        let samples = self.buffers.samples(p, image.width);
        let width = image.width as usize;
        let s = self.s;
        if width <= 16 {
            return interpolate_row_alone(row, &samples, width, s, self.k);
        }
        interpolate_row(row, &samples, &mut self.scratch, width, s, self.k)
    }
}

// Rows of a picture, with buffers for a width of up to WIDTH. All else in the destination is kept.
// COLUMNS is bounded since a call over a type of such a size asks that it fits in memory; where the
// size is that of the function's own result, as in each `new`, it is known.
fn convert_within<const WIDTH: usize, const COLUMNS: usize>(
    rgb: &mut [u16],
    stride: u32,
    image: &YuvPlanarImage<'_, u16>,
    s: Settings,
    rows: Rows,
) -> Clipped
    requires depth { T (among s.depth depths16) }
    requires ready { Ready s (frame image.now) (kernel_of s) }
    requires high { s.packing ≡ MostSignificantBytes }
    requires fit { RowsFit s (frame image.now) stride rows.first rows.count rgb.old }
    requires wide { (image.now.width ≤ WIDTH) × (WIDTH ≤ 2 * COLUMNS) × (COLUMNS ≤ 16384) }
    ensures destination { rgb.new
        ≡ band s (frame image.now) stride rows.first rows.count rgb.old }
    ensures counts { result ≡ clipped_in s (frame image.now) rows.first rows.count }
{
    let n = images::row_length(image.width, s.order) as usize;
    let mut converter = HighRows::<WIDTH, COLUMNS> {
        image: &*image,
        s,
        k: kernel::settings_kernel(s),
        buffers: Buffers::new(),
        scratch: Scratch::new(),
    };
    convert_each(rgb, stride, &mut converter, n, rows)
}

// Rows of a picture whose samples are in the high bits, in settings that no question refuses. All
// else in the destination is kept. Up to a width of 4096 the buffers are a quarter of what the
// widest needs, so that a call of few rows clears less.
pub fn convert_rows(
    rgb: &mut [u16],
    stride: u32,
    image: &YuvPlanarImage<'_, u16>,
    s: Settings,
    rows: Rows,
) -> Clipped
    requires depth { T (among s.depth depths16) }
    requires ready { Ready s (frame image.now) (kernel_of s) }
    requires high { s.packing ≡ MostSignificantBytes }
    requires fit { RowsFit s (frame image.now) stride rows.first rows.count rgb.old }
    ensures destination { rgb.new
        ≡ band s (frame image.now) stride rows.first rows.count rgb.old }
    ensures counts { result ≡ clipped_in s (frame image.now) rows.first rows.count }
{
    if image.width <= 4096 {
        convert_within::<4096, 2048>(rgb, stride, image, s, rows)
    } else {
        convert_within::<16384, 8192>(rgb, stride, image, s, rows)
    }
}
