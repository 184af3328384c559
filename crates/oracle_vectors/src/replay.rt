// A call again, whole and in bands.
use crate::call::{Call, narrow};
use crate::samples::{Levels, Sequence, sum};
use elements::Element;
use images::YuvPlanarImage;
use sample::plane::{Plane, PlaneMut, Size};
use std::alloc::Global;
use std::io;
use yuv_error::report::{band_report_with, report_of};
use yuv_error::{Band, BandReport, Report, YuvError};
use yuv_support::Clipped;
use yuv_to_rgba_bilinear::{yuv_to_rgbx_band, yuv_to_rgbx_bilinear};

// The four buffers of a call.
#[derive(Drop)]
struct Buffers<S> {
    y: Vec<S>,
    u: Vec<S>,
    v: Vec<S>,
    rgb: Vec<S>,
}

// The sides of U and V, and the stride of the plane that they are woven into. The sampling is decoded by the total decoder, since calls come
// here that are refused.
fn chroma_of(call: &Call) -> (Size, u32) {
    let sampling = yuv_support::sampling_of(call.codes.sampling);
    let chroma = images::chroma_size(sampling, Size::from(call.image));
    (chroma, chroma.width.wrapping_mul(2))
}

// The band of a call from row `first` on; the next first row is the one that the entry gives.
fn band<S: Element>(
    call: &Call,
    image: &YuvPlanarImage<'_, S>,
    rgb: &mut [S],
    first: u32,
) -> BandReport {
    let stride = call.rgb.stride;
    let answer = yuv_to_rgbx_band(image, call.codes, rgb, stride, first, call.limit());
    let nothing = Band {
        rows: 0,
        clipped: Clipped { below: 0, above: 0 },
        next: first,
    };
    band_report_with(answer.map(|_| ()), answer.unwrap_or(nothing))
}

// The answer of some bands and of the next one: counts and rows add up.
fn together(all: BandReport, next: BandReport) -> BandReport {
    BandReport {
        below: all.below.wrapping_add(next.below),
        above: all.above.wrapping_add(next.above),
        rows: all.rows.wrapping_add(next.rows),
        ..next
    }
}

// What the bands of a call answer together, from row 0 on: each begins where the one before it says. There is a band more than is needed,
// at the height.
fn in_bands<S: Element>(call: &Call, image: &YuvPlanarImage<'_, S>, rgb: &mut [S]) -> BandReport {
    let mut all = band(call, image, rgb, 0);
    for _ in 0..call.image.height / 2 + 1 {
        let next = band(call, image, rgb, narrow(all.next));
        all = together(all, next);
    }
    all
}

// Whether all bands together have the call's answer, and reach the height where it is no refusal.
fn is_band_answer(call: &Call, all: BandReport) -> bool {
    let answer = Report {
        number: all.number,
        expected: all.expected,
        received: all.received,
        below: all.below,
        above: all.above,
    };
    let reached = if all.number == 0 { call.height } else { 0 };
    answer == call.report && all.rows == reached && all.next == reached
}

// Whether a band from row 1 on has number 19, or the call's where that is a refusal or 1 is the height.
fn is_odd_answer(call: &Call, odd: BandReport) -> bool {
    let refused = call.report.number != 0 || call.height == 1;
    let number = if refused { call.report.number } else { 19 };
    odd.number == number && odd.rows == 0 && odd.next == 1
}

impl<S: Element> Buffers<S> {
    fn filled(alloc: Global, call: &Call) -> io::Result<Buffers<S>> {
        let zero = S::from_u16(0);
        let lengths = call.lengths;
        let mut y = vec![in alloc; zero; lengths.y]?;
        let mut u = vec![in alloc; zero; lengths.u]?;
        let mut v = vec![in alloc; zero; lengths.v]?;
        let mut rgb = vec![in alloc; zero; call.rgb.length]?;
        let mut sequence = call.seed;
        sequence.fill(&mut y, call.levels);
        sequence.fill(&mut u, call.levels);
        sequence.fill(&mut v, call.levels);
        sequence.fill(&mut rgb, Levels::ALL);
        Ok(Buffers { y, u, v, rgb })
    }

    // Whether the conversion of a call has its answer.
    fn is_whole_same(&mut self, call: &Call) -> bool {
        let image = YuvPlanarImage::with_planes(call.image, &self.y, &self.u, &self.v);
        let answer = yuv_to_rgbx_bilinear(&image, call.codes, &mut self.rgb, call.rgb.stride);
        report_of(answer) == call.report && sum(&self.rgb) == call.sum
    }

    fn weave_chroma(&self, call: &Call, uv: &mut [S]) -> Result<(), YuvError> {
        let (size, stride) = chroma_of(call);
        let u = Plane {
            elements: &self.u,
            stride: call.image.u_stride,
        };
        let v = Plane {
            elements: &self.v,
            stride: call.image.v_stride,
        };
        let elements = uv;
        weave::weave(PlaneMut { elements, stride }, u, v, size)
    }

    fn unweave_chroma(&mut self, call: &Call, uv: &[S]) -> Result<(), YuvError> {
        let (size, stride) = chroma_of(call);
        let u = PlaneMut {
            elements: &mut self.u,
            stride: call.image.u_stride,
        };
        let v = PlaneMut {
            elements: &mut self.v,
            stride: call.image.v_stride,
        };
        let elements = uv;
        weave::unweave(Plane { elements, stride }, u, v, size)
    }

    // Weaves U and V of a call together and takes them apart again into their planes, whose samples are others by then. Whether this is
    // accepted, as it must be where the call is.
    fn is_rewoven(&mut self, alloc: Global, call: &Call) -> io::Result<bool> {
        let mut uv = vec![in alloc; S::from_u16(0); 2048]?;
        if self.weave_chroma(call, &mut uv).is_err() {
            return Ok(call.report.number != 0);
        }
        Sequence { last: call.sum }.fill(&mut self.u, Levels::ALL);
        Sequence { last: call.sum }.fill(&mut self.v, Levels::ALL);
        Ok(self.unweave_chroma(call, &uv).is_ok())
    }

    // Whether the bands of a call together have its answer, and one from row 1 on is refused.
    fn are_bands_same(&mut self, call: &Call) -> bool {
        let image = YuvPlanarImage::with_planes(call.image, &self.y, &self.u, &self.v);
        let odd = band(call, &image, &mut self.rgb, 1);
        let all = in_bands(call, &image, &mut self.rgb);
        is_odd_answer(call, odd) && is_band_answer(call, all) && sum(&self.rgb) == call.sum
    }
}

// Whether a call has its answer, whole and in bands. The bands are converted from chroma that was woven and taken apart.
pub(super) fn is_same<S: Element>(alloc: Global, call: &Call) -> io::Result<bool> {
    let mut buffers = Buffers::<S>::filled(alloc, call)?;
    let whole = buffers.is_whole_same(call);
    let mut buffers = Buffers::<S>::filled(alloc, call)?;
    let rewoven = buffers.is_rewoven(alloc, call)?;
    let bands = buffers.are_bands_same(call);
    Ok(whole && rewoven && bands)
}
