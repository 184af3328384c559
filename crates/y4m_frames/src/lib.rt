// Where the frames of a YUV4MPEG2 stream are, and the questions that a call for one is asked: 16 to
// 18 of the stream, then 7 to 12 of the lent planes.
// A text and a place in it stay two parameters: the definitions count places from the begin. So do
// the place that is asked for and the header's end: one is C's number, and the other is read from
// the text.
#![tactic(auto)]

ghost use Rattle.std.specs.Prelude.{◌≡◌, true, cond, ◌&&◌, ◌*◌, ◌≤◌, eqb, length, Some, IfSome, IfOk};
ghost use Rattle.yuv_support.specs.Settings.{sampling_of};
ghost use Rattle.yuv_support.specs.Questions.{verdict};
ghost use Rattle.y4m_lines.specs.Lines.{past_line};
ghost use Rattle.y4m_lines.specs.Header.{is_header};
ghost use Rattle.y4m_lines.specs.Read.{header_read};
ghost use Rattle.yuv_error.specs.Told.{answered};
ghost use Rattle.yuv_error.specs.Asked.{asked, giving};
ghost use Rattle.y4m_frames.specs.Stream.{depths_of, sides_known};
ghost use Rattle.y4m_frames.specs.Questions.{lent_image, frame_answer};
ghost use Rattle.y4m_frames.specs.Judged.{known_header, header_known, header_said, samples_at, places_of, frame_in, samples_questions, judged_frame};

use images::{Lengths, check_constraints};
use sample::Sample;
use sample::depths::Depths;
use sample::plane::Size;
use y4m_lines::Header;
use y4m_text::Format;
use yuv_error::YuvError;
use yuv_error::buffers::{ask, check_sides};
use yuv_support::{Geometry, YuvChromaSubsampling};

// The strides of the lent planes. Beside `Lengths`, and not one `Buffer` for each plane: the
// definitions of the questions, which the clauses of reading cite, are over the two.
#[derive(Clone, Copy)]
pub struct Strides {
    pub y: u32,
    pub u: u32,
    pub v: u32,
}

// What a header says, where questions 16 and 17 get a "yes". No ghost fields say its bounds: the
// definitions make this record of any header (`said_of`), and would have to hold the proofs too.
#[derive(Clone, Copy)]
pub struct KnownHeader {
    pub size: Size,
    pub format: Format,
}

// Where the planes of a frame begin, and where the frame ends.
#[derive(Clone, Copy)]
pub struct Places {
    pub y: usize,
    pub u: usize,
    pub v: usize,
    pub end: usize,
}

// A frame of a stream: what its header says, and where the planes are.
#[derive(Clone, Copy)]
pub struct Frame {
    pub header: KnownHeader,
    pub places: Places,
}

// What is told of a call for a frame: the header, where it is known, and the frame, if the stream
// does not end at the place.
#[derive(Clone, Copy)]
pub struct Judged {
    pub header: Option<KnownHeader>,
    pub frame: Result<Option<Frame>, YuvError>,
}

// ---- the header

// Question 17 of a header, for samples of one type: what it says.
#[tactic(auto, unfolding(yuv_error::specs::Asked::asked, yuv_support::specs::Questions::verdict))]
pub fn check_known<D: Depths>(h: Header) -> Result<KnownHeader, YuvError>
    ensures known { result ≡ known_header D.known h }
    ensures height_least { IfOk result (λ k. 1 ≤ k.size.height) }
    ensures width_most { IfOk result (λ k. k.size.width ≤ 16384) }
    ensures height_most { IfOk result (λ k. k.size.height ≤ 16384) }
{
    let format = h.format.ok_or(YuvError::UnknownStream)?;
    ask(D::is_known_depth(format.depth), YuvError::UnknownStream)?;
    let size = Size {
        width: h.width,
        height: h.height,
    };
    check_sides(size).map_err(|_| YuvError::UnknownStream)?;
    Ok(KnownHeader { size, format })
}

// Question 17 of a header, the depth being known or not.
#[tactic(auto, unfolding(yuv_error::specs::Asked::asked, yuv_support::specs::Questions::verdict))]
pub fn is_known(h: Header, depth_known: bool) -> bool
    ensures { result ≡ (depth_known && sides_known h.width h.height) }
{
    let size = Size {
        width: h.width,
        height: h.height,
    };
    depth_known && check_sides(size).is_ok()
}

// ---- the place of a frame

// The place that a frame is asked for at; 0 is for the header's end, since C hands a number over.
fn frame_begin(place: u64, past: usize) -> usize
    ensures { result ≡ cond (eqb place 0) past place }
{
    if place == 0 {
        return past;
    }
    place as usize
}

// Question 16 of a place, `past` being the header's end: where the samples of its frame begin, if
// the stream does not end there.
#[tactic(auto, using(y4m_lines::proofs::OneLine::frame_within), unfolding(crate::specs::Stream::is_place, crate::specs::Stream::ends_at))]
fn samples_at(s: &[u8], place: u64, past: usize) -> Result<Option<usize>, YuvError>
    requires { past ≡ past_line s.now 0 }
    ensures found { result ≡ samples_at s.now place }
    ensures within { IfOk result (λ begin. IfSome begin (λ at. at ≤ length s.now)) }
{
    let at = frame_begin(place, past);
    if at < past {
        return Err(YuvError::MalformedStream);
    }
    if s.len() < at {
        return Err(YuvError::MalformedStream);
    }
    if at == s.len() {
        return Ok(None);
    }
    let end = y4m_lines::read_frame_line(s, at).ok_or(YuvError::MalformedStream)?;
    Ok(Some(end + 1))
}

// The bytes of the samples of a plane.
fn bytes_of<S: Sample>(size: Size) -> usize
    requires { (size.width ≤ 16384) × (size.height ≤ 16384) }
    ensures { result ≡ S.SIZE * (size.width * size.height) }
{
    S::SIZE * (size.width as usize * size.height as usize)
}

// Where the planes of a frame are whose samples begin at a place.
#[tactic(auto, using(crate::proofs::Sizes::bytes_most, crate::proofs::Sizes::chroma_most))]
pub fn places_of<S: Sample>(at: usize, sampling: YuvChromaSubsampling, size: Size) -> Places
    requires { (size.width ≤ 16384) × (size.height ≤ 16384) × (at ≤ 9223372036854775808) }
    ensures { result ≡ places_of S.SIZE at sampling size.width size.height }
{
    let luma = bytes_of::<S>(size);
    let chroma = bytes_of::<S>(images::chroma_size(sampling, size));
    let u = at + luma;
    let v = u + chroma;
    let end = v + chroma;
    Places { y: at, u, v, end }
}

// The same, the sampling being told by any code: 0 is 4:2:0, every other 4:2:2.
pub fn places_of_code<S: Sample>(at: usize, sampling: u32, width: u32, height: u32) -> Places
    requires width_most { width ≤ 16384 }
    requires height_most { height ≤ 16384 }
    requires place { at ≤ 9223372036854775808 }
    ensures { result ≡ places_of S.SIZE at (sampling_of sampling) width height }
{
    let sampling = yuv_support::sampling_of(sampling);
    places_of::<S>(at, sampling, Size { width, height })
}

// ---- the questions

fn image_of(h: KnownHeader, t: Strides) -> Geometry
    ensures { result ≡ lent_image h.size.width h.size.height t }
{
    Geometry {
        width: h.size.width,
        height: h.size.height,
        y_stride: t.y,
        u_stride: t.u,
        v_stride: t.v,
    }
}

// Questions 18 and 7 to 12 of a frame whose samples begin at a place.
#[tactic(auto, unfolding(yuv_error::specs::Asked::asked))]
fn check_samples<S: Sample>(
    s: &[u8],
    at: usize,
    h: KnownHeader,
    t: Strides,
    l: Lengths,
) -> Result<Option<Frame>, YuvError>
    requires place { at ≤ length s.now }
    requires height_least { 1 ≤ h.size.height }
    requires width_most { h.size.width ≤ 16384 }
    requires height_most { h.size.height ≤ 16384 }
    ensures { result ≡
        giving (asked (samples_questions S.SIZE s.now at h t l)) (Some (frame_in S.SIZE at h)) }
{
    let places = places_of::<S>(at, h.format.sampling, h.size);
    ask(places.end <= s.len(), YuvError::ShortFrame)?;
    check_constraints(h.format.sampling, image_of(h, t), l)?;
    Ok(Some(Frame { header: h, places }))
}

// All questions that are left for a stream whose header is well formed: 16 of the place, 17, whose
// answer is `known`, then 18 and 7 to 12.
#[tactic(auto, unfolding(yuv_error::specs::Asked::asked, crate::specs::Judged::judged_frame, crate::specs::Questions::frame_questions))]
fn check_frame<S: Sample>(
    s: &[u8],
    place: u64,
    past: usize,
    known: Result<KnownHeader, YuvError>,
    t: Strides,
    l: Lengths,
) -> Result<Option<Frame>, YuvError>
    requires formed { is_header s.now ≡ true }
    requires past { past ≡ past_line s.now 0 }
    requires known { known ≡ header_known (depths_of S.SIZE) s.now }
    requires height_least { IfOk known (λ h. 1 ≤ h.size.height) }
    requires width_most { IfOk known (λ h. h.size.width ≤ 16384) }
    requires height_most { IfOk known (λ h. h.size.height ≤ 16384) }
    ensures { result ≡ judged_frame S.SIZE s.now place t l }
{
    let begin = samples_at(s, place, past)?;
    let h = known?;
    match begin {
        None => Ok(None),
        Some(at) => check_samples::<S>(s, at, h, t, l),
    }
}

// All questions of a frame.
#[tactic(auto, using(crate::proofs::Told::malformed_frame, crate::proofs::Told::malformed_answer, crate::proofs::Told::judged_answered), unfolding(y4m_lines::specs::Read::header_read))]
pub fn judge<S: Sample>(s: &[u8], place: u64, t: Strides, l: Lengths) -> Judged
    ensures header { result.header ≡ header_said (depths_of S.SIZE) s.now }
    ensures frame { result.frame ≡ judged_frame S.SIZE s.now place t l }
    ensures answer { answered result.frame ≡ frame_answer S.SIZE s.now place t l }
{
    let Some(h) = y4m_lines::read_header(s) else {
        return Judged {
            header: None,
            frame: Err(YuvError::MalformedStream),
        };
    };
    let known = check_known::<S>(h);
    Judged {
        header: known.ok(),
        frame: check_frame::<S>(s, place, h.past, known, t, l),
    }
}
