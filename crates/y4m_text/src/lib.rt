// The header line of a YUV4MPEG2 stream, as it is written, and the format that it tells.
#![tactic(auto)]

ghost use Rattle.std.specs.Prelude.{◌≡◌, ◌≤◌, length};
ghost use Rattle.y4m_text.specs.Write.{code_of, name_of, header_text, held};

use arrayvec::ArrayVec;
use sample::plane::Size;
use sheet_writing::{push_bytes, push_number};
use yuv_support::YuvChromaSubsampling;

// The sampling and the depth of a stream.
#[derive(Clone, Copy)]
pub struct Format {
    pub sampling: YuvChromaSubsampling,
    pub depth: u32,
}

// A short text: its first `length` bytes.
#[derive(Clone, Copy)]
pub struct Text {
    pub bytes: [u8; 40],
    pub length: usize,
}

// The code of a sampling: C is handed the code, and the definitions of the text are over it. No
// `From`: streams alone give a code back, and no other case of a setting has a number.
pub fn code_of(sampling: YuvChromaSubsampling) -> u32
    ensures { result ≡ code_of sampling }
{
    match sampling {
        YuvChromaSubsampling::Yuv420 => 0,
        YuvChromaSubsampling::Yuv422 => 1,
    }
}

// The name of C. Those that are read are in y4m_lines, as a table: there a name may be unknown.
#[tactic(auto, unfolding(crate::specs::Write::name_of))]
fn name_of(format: Format) -> &'static [u8]
    ensures name { result.now ≡ name_of (code_of format.sampling) format.depth }
    ensures most { length result.now ≤ 7 }
{
    match (format.depth, format.sampling) {
        (8, YuvChromaSubsampling::Yuv420) => b"420jpeg",
        (8, YuvChromaSubsampling::Yuv422) => b"422",
        (10, YuvChromaSubsampling::Yuv420) => b"420p10",
        (10, YuvChromaSubsampling::Yuv422) => b"422p10",
        (_, YuvChromaSubsampling::Yuv420) => b"420p12",
        (_, YuvChromaSubsampling::Yuv422) => b"422p12",
    }
}

// The header line of a stream.
#[tactic(auto, unfolding(crate::specs::Write::header_text))]
pub fn header_text(format: Format, size: Size) -> ArrayVec<u8, 40>
    ensures text { result.items
        ≡ header_text (code_of format.sampling) format.depth size.width size.height }
    ensures most { length result.items ≤ 40 }
{
    let mut text: ArrayVec<u8, 40> = ArrayVec::new();
    push_bytes(&mut text, b"YUV4MPEG2 ");
    text.push(b'W');
    push_number(&mut text, size.width);
    push_bytes(&mut text, b" H");
    push_number(&mut text, size.height);
    push_bytes(&mut text, b" C");
    push_bytes(&mut text, name_of(format));
    text.push(b'\n');
    text
}

// The header line of a stream whose sampling is told by any code: 0 is 4:2:0, every other 4:2:2.
pub fn header_text_of_code(sampling: u32, depth: u32, width: u32, height: u32) -> Text
    ensures text { held result ≡ header_text sampling depth width height }
    ensures count { result.length ≡ length (header_text sampling depth width height) }
    ensures most { result.length ≤ 40 }
{
    let format = Format {
        sampling: yuv_support::sampling_of(sampling),
        depth,
    };
    let line = header_text(format, Size { width, height });
    let mut bytes = [0u8; 40];
    bytes[..line.len()].copy_from_slice(line.as_slice());
    Text {
        bytes,
        length: line.len(),
    }
}
