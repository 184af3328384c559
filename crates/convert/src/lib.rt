// The rows of a picture, once for bytes and u16: a row from its samples, the rows of a band from
// what converts one of them, and the rows of a picture whose samples are in the low bits.
// `rgb` and `stride` are no `PlaneMut`, here and in the crates above that hand them on: a struct round
// a `&mut` has to be taken apart and made again in each function. `image`, `s` and `rows` stay beside
// them: `RowsFit` is of the destination too, and so no ghost field of a struct of the three, and
// `LowRows` and `HighRows`, which are made of `image` and `s` at once, hold what else each needs.
#![tactic(auto)]

ghost use Rattle.std.specs.Prelude.{◌≡◌, ℕ, ◌*◌, ◌≤◌, ◌<◌, T, length, get_or};
ghost use Rattle.yuv_support.specs.declared.YuvBytesPacking.TheVariants.{LeastSignificantBytes};
ghost use Rattle.yuv_support.specs.declared.Settings.{Settings};
ghost use Rattle.yuv_support.specs.Settings.{among};
ghost use Rattle.yuv_support.specs.Coefficients.{usable};
ghost use Rattle.yuv_support.specs.Blend.{Frame};
ghost use Rattle.yuv_support.specs.Picture.{channels_of, row_of, element_of, band};
ghost use Rattle.yuv_support.specs.Counts.{clipped_row, clipped_in};
ghost use Rattle.kernel.specs.Kernels.{red_first, kernel_of, most_of};
ghost use Rattle.kernel.specs.Lent.{frame, RowsFit};
ghost use Rattle.kernel.specs.Ordered.{Ready};
ghost use Rattle.kernel.proofs.Widths.{kernel_bytes, kernel_words};
ghost use Rattle.convert.specs.Most.{most_of_bytes, most_of_words};
ghost use Rattle.convert.specs.Samples.{Arranged, samples_value, samples_clipped, SamplesFit};

use blocks::block::Block;
use blocks::chroma::{ChromaRows, Pixels, Scratch, Source};
use images::YuvPlanarImage;
use interpolate::whole::{interpolate, interpolate_alone};
use numerics::Kernel;
use sample::Sample;
use yuv_support::{Clipped, Settings, YuvSourceChannels};

// A width of samples, with the kernels of its depths.
pub trait Convert: Block {
    // No sample is above the largest. It does nothing: the prover knows this of a slice that is a
    // parameter, and not of one in a struct. Each width has its empty body, since the prover knows the
    // bound of u8 and of u16, and not of `Self`.
    fn samples_fit(row: &[Self])
        ensures { (i : ℕ) → get_or (Self.numbers row.now) i 0 ≤ Self.most };

    // The kernel of settings of this width is one of this width, and has room for its samples.
    ghost kernel_is: { (s : Settings) → T (usable s) → T (among s.depth Self.known)
        → Self.kernel (kernel_of s) };

    ghost most_is: { (s : Settings) → T (among s.depth Self.known)
        → Self.most ≤ most_of s.depth };
}

impl Convert for u8 {
    ghost kernel_is = { kernel_bytes };

    ghost most_is = { most_of_bytes };

    fn samples_fit(row: &[u8]) {}
}

impl Convert for u16 {
    ghost kernel_is = { kernel_words };

    ghost most_is = { most_of_words };

    fn samples_fit(row: &[u16]) {}
}

// The two rows of a chroma plane that a luma row blends.
#[derive(Clone, Copy)]
pub struct NearAndFar<'a, S> {
    pub near: &'a [S],
    pub far: &'a [S],
}

// The samples that a row is made of.
#[derive(Clone, Copy)]
pub struct RowSamples<'a, S> {
    pub y: &'a [S],
    pub u: NearAndFar<'a, S>,
    pub v: NearAndFar<'a, S>,
}

// The samples in the order of the letters: red's first, or blue's.
#[tactic(auto, unfolding(kernel::specs::Kernels::red_first))]
fn arranged<'a, S: Sample>(
    order: YuvSourceChannels,
    y: &'a [S],
    blue: ChromaRows<'a, S>,
    red: ChromaRows<'a, S>,
) -> Source<'a, S>
    ensures luma { result.y.now ≡ y.now }
    ensures chroma { Arranged (red_first order) blue.entry red.entry result.first result.third }
{
    match order {
        YuvSourceChannels::Rgb | YuvSourceChannels::Rgba => Source {
            y,
            first: red,
            third: blue,
        },
        YuvSourceChannels::Bgra | YuvSourceChannels::Bgr => Source {
            y,
            first: blue,
            third: red,
        },
    }
}

// One row in a channel order. The order is looked at here, outside the loops: blue goes first by
// exchanging U and V. Cr's tail goes by the mode. That `row`, `samples` and `scratch` are no struct is
// as in `interpolate`, whose head says why.
pub fn interpolate_row<S: Block>(
    row: &mut [S],
    samples: &RowSamples<'_, S>,
    scratch: &mut Scratch<S>,
    width: usize,
    s: Settings,
    k: Kernel,
) -> Clipped
    requires kernel { S.kernel k }
    requires fits { SamplesFit S.numbers s width row.old samples.now }
    ensures row { S.numbers row.new
        ≡ row_of (λ r. samples_value S.numbers k s width samples.now) 0 (S.numbers row.old) }
    ensures counts { result ≡ samples_clipped S.numbers k s width samples.now }
{
    let RowSamples { y, u, v } = *samples;
    let last = width.div_ceil(2) - 1;
    let blue = ChromaRows {
        near: u.near,
        far: u.far,
        tail: numerics::tail_at(u.near, u.far, last),
    };
    let red = ChromaRows {
        near: v.near,
        far: v.far,
        tail: numerics::cr_tail_at(v.near, v.far, last, s.mode),
    };
    let source = arranged(s.order, y, blue, red);
    // From two places: called from one, the compiler puts it in here, and frames take 1.06 as long.
    match s.order {
        YuvSourceChannels::Rgb | YuvSourceChannels::Bgr => {
            interpolate(row, &source, scratch, width, Pixels { k, letters: 3 })
        }
        YuvSourceChannels::Rgba | YuvSourceChannels::Bgra => {
            interpolate(row, &source, scratch, width, Pixels { k, letters: 4 })
        }
    }
}

// The same with its own room to work in; a narrow row needs none. The samples are arranged here
// again, and not by a function that both call: this one is put into its callers whole, so that
// narrow rows keep what describes them in registers.
#[inline(always)]
pub fn interpolate_row_alone<S: Block>(
    row: &mut [S],
    samples: &RowSamples<'_, S>,
    width: usize,
    s: Settings,
    k: Kernel,
) -> Clipped
    requires kernel { S.kernel k }
    requires fits { SamplesFit S.numbers s width row.old samples.now }
    ensures row { S.numbers row.new
        ≡ row_of (λ r. samples_value S.numbers k s width samples.now) 0 (S.numbers row.old) }
    ensures counts { result ≡ samples_clipped S.numbers k s width samples.now }
{
    let RowSamples { y, u, v } = *samples;
    let mode = s.mode;
    let last = width.div_ceil(2) - 1;
    let blue = ChromaRows {
        near: u.near,
        far: u.far,
        tail: numerics::tail_at(u.near, u.far, last),
    };
    let red = ChromaRows {
        near: v.near,
        far: v.far,
        tail: numerics::cr_tail_at(v.near, v.far, last, mode),
    };
    let source = arranged(s.order, y, blue, red);
    let letters = s.order.get_channels_count();
    interpolate_alone(row, &source, width, Pixels { k, letters })
}

// Rows of a picture: `count` of them, from row `first` on.
#[derive(Clone, Copy)]
pub struct Rows {
    pub first: u32,
    pub count: u32,
}

// What converts the rows of one picture.
pub trait RowConverter<S: Sample> {
    // The settings, and the picture as a frame.
    ghost settings: { Self → Settings };

    ghost picture: { Self → Frame };

    // What holds of it before and after each row.
    ghost is_ready: { Self → Type 0 };

    // Row r, into a part that is as long as the row.
    fn convert_row(&mut self, row: &mut [S], r: u32) -> Clipped
        requires ready { is_ready self.old }
        requires row_exists { r < (picture self.old).height }
        requires places { length (S.numbers row.old)
            ≡ (picture self.old).width * channels_of (settings self.old).order }
        ensures row { S.numbers row.new
            ≡ row_of (element_of (settings self.old) (picture self.old)) r (S.numbers row.old) }
        ensures counts { result ≡ clipped_row (settings self.old) (picture self.old) r }
        ensures settings { settings self.new ≡ settings self.old }
        ensures picture { picture self.new ≡ picture self.old }
        ensures ready { is_ready self.new };

    // No sum of counts is too large.
    ghost small: { (c : Self) → is_ready c
        → ((picture c).width ≤ 16384) × ((picture c).height ≤ 16384) };
}

// Each of the rows, n elements long, in its place of the destination. All else there is kept.
pub fn convert_each<S: Sample, C: RowConverter<S>>(
    rgb: &mut [S],
    stride: u32,
    converter: &mut C,
    n: usize,
    rows: Rows,
) -> Clipped
    requires ready { C.is_ready converter.old }
    requires length { n
        ≡ (C.picture converter.old).width * channels_of (C.settings converter.old).order }
    requires fit { RowsFit (C.settings converter.old) (C.picture converter.old)
        stride rows.first rows.count (S.numbers rgb.old) }
    ensures destination { S.numbers rgb.new
        ≡ band (C.settings converter.old) (C.picture converter.old)
        stride rows.first rows.count (S.numbers rgb.old) }
    ensures counts { result
        ≡ clipped_in (C.settings converter.old) (C.picture converter.old) rows.first rows.count }
{
    let end = rows.first + rows.count;
    let mut clipped = Clipped { below: 0, above: 0 };
    // By number, which `convert_row` takes; of what a loop over `chunks_mut` writes nothing is known.
    for r in rows.first..end {
        let at = stride as usize * r as usize;
        let x = converter.convert_row(&mut rgb[at..at + n], r);
        clipped = numerics::both(clipped, x);
    }
    clipped
}

// A picture whose samples are in the low bits.
#[derive(Drop)]
struct LowRows<'a, S> {
    image: &'a YuvPlanarImage<'a, S>,
    s: Settings,
    k: Kernel,
    scratch: Scratch<S>,
}

impl<'a, S: Convert> RowConverter<S> for LowRows<'a, S> {
    ghost settings = { λ c. c.s };

    ghost picture = { λ c. frame S.numbers c.image.now };

    ghost is_ready = { λ c. T (among c.s.depth S.known)
        × Ready c.s (frame S.numbers c.image.now) c.k
        × (c.s.packing ≡ LeastSignificantBytes) };

    ghost small = { λ c ready. (ready.1.width_most, ready.1.height_most) };

    fn convert_row(&mut self, row: &mut [S], r: u32) -> Clipped {
        let image = self.image;
        S::samples_fit(image.u_plane);
        S::samples_fit(image.v_plane);
        let p = images::chroma_rows(self.s.sampling, image.size(), r);
        let y = images::row(image.y_plane, image.y_stride, r, image.width);
        let un = images::row(image.u_plane, image.u_stride, p.near, p.columns);
        let uf = images::row(image.u_plane, image.u_stride, p.other, p.columns);
        let vn = images::row(image.v_plane, image.v_stride, p.near, p.columns);
        let vf = images::row(image.v_plane, image.v_stride, p.other, p.columns);
        let u = NearAndFar { near: un, far: uf };
        let v = NearAndFar { near: vn, far: vf };
        let samples = RowSamples { y, u, v };
        let width = image.width as usize;
        let s = self.s;
        if width <= 16 {
            return interpolate_row_alone(row, &samples, width, s, self.k);
        }
        interpolate_row(row, &samples, &mut self.scratch, width, s, self.k)
    }
}

// Rows of a picture whose samples are in the low bits, in settings that no question refuses. All
// else in the destination is kept.
pub fn convert_rows<S: Convert>(
    rgb: &mut [S],
    stride: u32,
    image: &YuvPlanarImage<'_, S>,
    s: Settings,
    rows: Rows,
) -> Clipped
    requires depth { T (among s.depth S.known) }
    requires ready { Ready s (frame S.numbers image.now) (kernel_of s) }
    requires low { s.packing ≡ LeastSignificantBytes }
    requires fit { RowsFit s (frame S.numbers image.now)
        stride rows.first rows.count (S.numbers rgb.old) }
    ensures destination { S.numbers rgb.new
        ≡ band s (frame S.numbers image.now) stride rows.first rows.count (S.numbers rgb.old) }
    ensures counts { result ≡ clipped_in s (frame S.numbers image.now) rows.first rows.count }
{
    let n = images::row_length(image.width, s.order) as usize;
    let mut converter = LowRows {
        image: &*image,
        s,
        k: kernel::settings_kernel(s),
        scratch: Scratch::new(),
    };
    convert_each(rgb, stride, &mut converter, n, rows)
}
