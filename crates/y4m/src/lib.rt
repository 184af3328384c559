// YUV4MPEG2 streams: the header and the frames read into lent planes, and written, for samples of
// either width. Nothing is asked of the caller. A call that a question refuses changes no buffer.
// Sampling and depth are codes where a stream is written: C hands them over, and questions 1 and 2
// are asked of them. `check_format`, which each writing call asks first, gives the format. The two
// stay two parameters: a struct of codes would be taken apart there at once.
#![tactic(auto)]

ghost use Rattle.std.specs.Prelude.{◌≡◌, ◌≤◌, cond, leb, length, IfOk, Ok, Err};
ghost use Rattle.std.proofs.lemmas.List.Edits.{sets};
ghost use Rattle.yuv_support.specs.Settings.{among, sampling_of};
ghost use Rattle.yuv_support.specs.Blend.{chroma_width, chroma_height};
ghost use Rattle.yuv_support.specs.Questions.{verdict, at_least};
ghost use Rattle.yuv_error.specs.Told.{as_told, answered};
ghost use Rattle.yuv_error.specs.Asked.{asked, giving};
ghost use Rattle.images.specs.Lent.{geometry, lengths_with};
ghost use Rattle.y4m_text.specs.Write.{header_text};
ghost use Rattle.planes.specs.Stream.{plane_read};
ghost use Rattle.y4m_frames.specs.Questions.{lengths_of, strides};
ghost use Rattle.y4m.specs.Reading.{header_told, frame_told, y_after, u_after, v_after};
ghost use Rattle.y4m.specs.Writing.{header_asked, header_written, after_header, frame_text, frame_length, frame_asked, frame_written, after_frame};
ghost use Rattle.y4m.specs.Inner.{framed, PlanesFit, format_questions, OutputFits, written_by, output_by};

use images::{Lengths, YuvPlanarImage};
use planes::stream::{read_plane, write_plane};
use sample::Sample;
use sample::depths::{Depths, EitherElement};
use sample::plane::{PlaneMut, Size};
use y4m_frames::{Frame, KnownHeader, Strides};
use y4m_text::{Format, code_of};
use yuv_error::buffers::{ask, check_output, check_sides};
use yuv_error::report::told_of;
use yuv_error::{Told, YuvError};
use yuv_support::{Geometry, YuvChromaSubsampling};

// The answer of a call that reads: number, expected and received; the place to go on at; what the
// header says; and whether a frame was read, 1 or 0, a number, since this is C's record.
#[repr(C)]
#[derive(Clone, Copy, Debug, PartialEq, Eq)]
pub struct Y4mFrame {
    pub number: u64,
    pub expected: u64,
    pub received: u64,
    pub next: u64,
    pub width: u32,
    pub height: u32,
    pub sampling: u32,
    pub depth: u32,
    pub found: u32,
}

// The answer of a call that writes: number, expected and received, and the bytes written.
#[repr(C)]
#[derive(Clone, Copy, Debug, PartialEq, Eq)]
pub struct Written {
    pub number: u64,
    pub expected: u64,
    pub received: u64,
    pub written: u64,
}

// ---- reading

// The numbers of an answer, with what the header says; where it is not known, 0s.
fn framed(told: Told, header: Option<KnownHeader>, next: u64, found: u32) -> Y4mFrame
    ensures { result ≡ framed told header next found }
{
    let unknown = Y4mFrame {
        number: told.number,
        expected: told.expected,
        received: told.received,
        next,
        width: 0,
        height: 0,
        sampling: 0,
        depth: 0,
        found,
    };
    let Some(h) = header else {
        return unknown;
    };
    Y4mFrame {
        width: h.size.width,
        height: h.size.height,
        sampling: code_of(h.format.sampling),
        depth: h.format.depth,
        ..unknown
    }
}

// The header of a stream: questions 16 and 17, what it says, and the place of the first frame line.
pub fn header(stream: &[u8]) -> Y4mFrame
    ensures { result ≡ header_told stream.now }
{
    let Some(h) = y4m_lines::read_header(stream) else {
        return framed(Told::from(YuvError::MalformedStream), None, 0, 0);
    };
    let known = y4m_frames::check_known::<EitherElement>(h);
    let next = known.map_or(0, |_| h.past as u64);
    framed(told_of(known), known.ok(), next, 0)
}

// The three planes of a frame, with their strides.
fn read_planes<S: Sample>(s: &[u8], frame: Frame, y: &mut [S], u: &mut [S], v: &mut [S], t: Strides)
    requires { PlanesFit S.SIZE s.now frame t (length y.old) (length u.old) (length v.old) }
    ensures y_plane { S.numbers y.new ≡
        plane_read S.SIZE s.now frame.places.y frame.header.size.width frame.header.size.height
        t.y (S.numbers y.old) }
    ensures u_plane { S.numbers u.new ≡
        plane_read S.SIZE s.now frame.places.u (chroma_width frame.header.size.width)
        (chroma_height frame.header.format.sampling frame.header.size.height)
        t.u (S.numbers u.old) }
    ensures v_plane { S.numbers v.new ≡
        plane_read S.SIZE s.now frame.places.v (chroma_width frame.header.size.width)
        (chroma_height frame.header.format.sampling frame.header.size.height)
        t.v (S.numbers v.old) }
{
    let places = frame.places;
    let luma = frame.header.size;
    let chroma = images::chroma_size(frame.header.format.sampling, luma);
    let y = PlaneMut {
        elements: y,
        stride: t.y,
    };
    let u = PlaneMut {
        elements: u,
        stride: t.u,
    };
    let v = PlaneMut {
        elements: v,
        stride: t.v,
    };
    read_plane(y, s, places.y, luma);
    read_plane(u, s, places.u, chroma);
    read_plane(v, s, places.v, chroma);
}

// The frame at a place of a stream, into planes: questions 16 to 18, then 7 to 12. The place 0 is
// the header's end: C hands the place over, and the first call has none.
#[tactic(auto, using(crate::proofs::Reading::none_unread, crate::proofs::Reading::told_none), unfolding(crate::specs::Reading::y_after, crate::specs::Reading::u_after, crate::specs::Reading::v_after))]
pub fn read<S: Sample>(
    stream: &[u8],
    place: u64,
    y: PlaneMut<'_, S>,
    u: PlaneMut<'_, S>,
    v: PlaneMut<'_, S>,
) -> Y4mFrame
    ensures answer { result ≡ frame_told S.SIZE stream.now place
        (strides y.entry.stride u.entry.stride v.entry.stride)
        (lengths_of y.entry.elements.now u.entry.elements.now v.entry.elements.now) }
    ensures y_plane { S.numbers y.exit.0.now ≡ y_after S.SIZE stream.now place
        (strides y.entry.stride u.entry.stride v.entry.stride)
        (lengths_of y.entry.elements.now u.entry.elements.now v.entry.elements.now)
        (S.numbers y.entry.elements.now) }
    ensures u_plane { S.numbers u.exit.0.now ≡ u_after S.SIZE stream.now place
        (strides y.entry.stride u.entry.stride v.entry.stride)
        (lengths_of y.entry.elements.now u.entry.elements.now v.entry.elements.now)
        (S.numbers u.entry.elements.now) }
    ensures v_plane { S.numbers v.exit.0.now ≡ v_after S.SIZE stream.now place
        (strides y.entry.stride u.entry.stride v.entry.stride)
        (lengths_of y.entry.elements.now u.entry.elements.now v.entry.elements.now)
        (S.numbers v.entry.elements.now) }
{
    // Taken apart, and made again in `read_planes`: of a plane that is lent or handed on whole,
    // nothing is known of its elements at the end.
    let t = Strides {
        y: y.stride,
        u: u.stride,
        v: v.stride,
    };
    let PlaneMut { elements: y, .. } = y;
    let PlaneMut { elements: u, .. } = u;
    let PlaneMut { elements: v, .. } = v;
    // `Lengths` of a conversion, of which questions 7 to 12 ask no length of rgb.
    let l = Lengths {
        y: y.len() as u64,
        u: u.len() as u64,
        v: v.len() as u64,
        rgb: 0,
    };
    let judged = y4m_frames::judge::<S>(stream, place, t, l);
    let told = told_of(judged.frame);
    let Some(frame) = judged.frame.ok().flatten() else {
        return framed(told, judged.header, place, 0);
    };
    read_planes(stream, frame, y, u, v, t);
    framed(told, judged.header, frame.places.end as u64, 1)
}

// ---- writing

// Questions 1 to 4, for samples of one type: the format that the codes are.
#[tactic(auto, unfolding(yuv_error::specs::Asked::asked))]
fn check_format<D: Depths>(sampling: u32, depth: u32, size: Size) -> Result<Format, YuvError>
    ensures answer { result ≡
        giving (asked (format_questions sampling (among depth D.known) size.width size.height))
        (record { sampling = sampling_of sampling; depth = depth }) }
    ensures format { IfOk result (λ f. f
        ≡ record { sampling = sampling_of sampling; depth = depth }) }
    ensures height_least { IfOk result (λ _. 1 ≤ size.height) }
    ensures width_most { IfOk result (λ _. size.width ≤ 16384) }
    ensures height_most { IfOk result (λ _. size.height ≤ 16384) }
{
    let sampling = images::check_sampling(sampling)?;
    ask(D::is_known_depth(depth), YuvError::UnknownCode)?;
    check_sides(size)?;
    Ok(Format { sampling, depth })
}

// The answer of a call that writes, by the bytes that it wrote. A function and no `From`: an `impl`
// for `Result<usize, YuvError>` would have this body and this clause, and be no plainer.
fn told_written(written: Result<usize, YuvError>) -> Written
    ensures { result ≡ written_by written }
{
    let told = told_of(written);
    Written {
        number: told.number,
        expected: told.expected,
        received: told.received,
        written: written.unwrap_or(0) as u64,
    }
}

// A text at the begin of an output. A function of its own: `copy_from_slice` tells of the part, and
// here it is said of the whole.
fn put(out: &mut [u8], text: &[u8])
    requires { length text.now ≤ length out.old }
    ensures { out.new ≡ sets out.old 0 text.now }
{
    out[..text.len()].copy_from_slice(text);
}

// The header of a stream, at the begin of an output: questions 1 to 4, then 5. The answer is how
// many bytes it has.
#[tactic(auto, unfolding(yuv_error::specs::Asked::asked))]
fn put_header(sampling: u32, depth: u32, size: Size, out: &mut [u8]) -> Result<usize, YuvError>
    ensures count { result ≡
        giving (asked (header_asked sampling depth size.width size.height (length out.old)))
        (length (header_text sampling depth size.width size.height)) }
    ensures output { out.new
        ≡ output_by result (header_text sampling depth size.width size.height) out.old }
{
    let format = check_format::<EitherElement>(sampling, depth, size)?;
    let text = y4m_text::header_text(format, size);
    let bytes = text.as_slice();
    check_output(out.len() as u64, bytes.len() as u64)?;
    put(out, bytes);
    Ok(bytes.len())
}

// The header of a stream, at the begin of an output: questions 1 to 4, then 5.
pub fn write_header(sampling: u32, depth: u32, size: Size, out: &mut [u8]) -> Written
    ensures answer { result
        ≡ header_written sampling depth size.width size.height (length out.old) }
    ensures output { out.new ≡ after_header sampling depth size.width size.height out.old }
{
    told_written(put_header(sampling, depth, size, out))
}

// Questions 1 to 4, 7 to 12 and then 5 of an output of `out_length` bytes: the sampling that the
// code is.
#[tactic(auto, unfolding(yuv_error::specs::Asked::asked))]
fn check_frame<S: Sample>(
    sampling: u32,
    depth: u32,
    image: Geometry,
    l: Lengths,
    out_length: u64,
) -> Result<YuvChromaSubsampling, YuvError>
    ensures { result ≡
        giving (asked (frame_asked S.known S.SIZE sampling depth image l out_length))
        (sampling_of sampling) }
{
    let size = Size::from(image);
    let format = check_format::<S>(sampling, depth, size)?;
    images::check_constraints(format.sampling, image, l)?;
    let places = y4m_frames::places_of::<S>(6, format.sampling, size);
    check_output(out_length, places.end as u64)?;
    Ok(format.sampling)
}

// The line and the samples of an accepted frame; the answer is how many bytes that is.
fn put_planes<S: Sample>(
    sampling: YuvChromaSubsampling,
    image: &YuvPlanarImage<'_, S>,
    out: &mut [u8],
) -> usize
    requires { OutputFits S.SIZE sampling (geometry image.now) (lengths_with image.now 0)
        (length out.old) }
    ensures count { result ≡ frame_length S.SIZE sampling (geometry image.now) }
    ensures output { out.new ≡ sets out.old 0
        (frame_text S.SIZE sampling (geometry image.now)
        (S.numbers image.now.y_plane.now) (S.numbers image.now.u_plane.now)
        (S.numbers image.now.v_plane.now)) }
{
    let luma = image.size();
    let chroma = images::chroma_size(sampling, luma);
    put(out, b"FRAME\n");
    let y_end = write_plane(out, 6, image.y(), luma);
    let u_end = write_plane(out, y_end, image.u(), chroma);
    write_plane(out, u_end, image.v(), chroma)
}

// A frame, at the begin of an output: questions 1 to 4, 7 to 12, then 5. The answer is how many
// bytes it has.
fn put_frame<S: Sample>(
    sampling: u32,
    depth: u32,
    image: &YuvPlanarImage<'_, S>,
    out: &mut [u8],
) -> Result<usize, YuvError>
    ensures count { result ≡
        giving (asked (frame_asked S.known S.SIZE sampling depth (geometry image.now)
        (lengths_with image.now 0) (length out.old)))
        (frame_length S.SIZE (sampling_of sampling) (geometry image.now)) }
    ensures output { out.new ≡ output_by result
        (frame_text S.SIZE (sampling_of sampling) (geometry image.now)
        (S.numbers image.now.y_plane.now) (S.numbers image.now.u_plane.now)
        (S.numbers image.now.v_plane.now)) out.old }
{
    let length = out.len() as u64;
    let sampling = check_frame::<S>(sampling, depth, image.geometry(), image.lengths(0), length)?;
    Ok(put_planes(sampling, image, out))
}

// A frame, at the begin of an output: questions 1 to 4, 7 to 12, then 5.
pub fn write_frame<S: Sample>(
    sampling: u32,
    depth: u32,
    image: &YuvPlanarImage<'_, S>,
    out: &mut [u8],
) -> Written
    ensures answer { result ≡ frame_written S.SIZE sampling depth (geometry image.now)
        (lengths_with image.now 0) (length out.old) }
    ensures output { out.new ≡ after_frame S.SIZE sampling depth (geometry image.now)
        (lengths_with image.now 0)
        (S.numbers image.now.y_plane.now) (S.numbers image.now.u_plane.now)
        (S.numbers image.now.v_plane.now) out.old }
{
    told_written(put_frame(sampling, depth, image, out))
}
