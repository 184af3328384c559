// The two kinds of lines of a YUV4MPEG2 stream, the header and the frame line, as they are read.
// A text and a place in it stay two parameters: the definitions count places from the begin.
// The six names of C are here and in y4m_text: here a name is looked up and may be none of them,
// there a format has its name; one table, searched from either end, would be no plainer.
#![tactic(auto)]

ghost use Rattle.std.specs.Prelude.{◌≡◌, ◌≤◌, ◌==◌, not, length};
ghost use Rattle.std.specs.List.{prefix_len};
ghost use Rattle.y4m_lines.specs.Lines.{fields, none_empty};
ghost use Rattle.y4m_lines.specs.Header.{named, format_of, known_format};
ghost use Rattle.y4m_lines.specs.Read.{line_read, frame_line_read, capped, number_read, FieldRead, side_read, colour_read, header_read};

use y4m_text::Format;
use yuv_support::YuvChromaSubsampling;

// What a header says, and the place after it. The format is missing where C has a name that is
// not known; 16,385 is told for every larger side, since all of them are refused alike.
#[derive(Clone, Copy)]
pub struct Header {
    pub width: u32,
    pub height: u32,
    pub format: Option<Format>,
    pub past: usize,
}

// More than one field of a line begins with the letter.
#[derive(Clone, Copy)]
struct Repeated;

// How many bytes come before the first such byte, or all where there is none. A number and no
// `Option`: the definitions count the bytes before it, and both callers compare the count.
fn find(text: &[u8], byte: u8) -> usize
    ensures { result ≡ prefix_len (λ x. not (x == byte)) text.now }
{
    text.iter().take_while(|b| **b != byte).count()
}

// The place of the byte 10 of the line at a place, which has at most 256 bytes with it.
fn line_at(s: &[u8], at: usize) -> Option<usize>
    requires { at ≤ length s.now }
    ensures { result ≡ line_read s.now at }
{
    let most = (s.len() - at).min(256);
    let end = find(&s[at..at + most], b'\n');
    if end < most {
        return Some(at + end);
    }
    None
}

// Whether no field of a line is empty.
fn none_empty(line: &[u8]) -> bool
    ensures { result ≡ none_empty (fields line.now) }
{
    line.split(|b| *b == b' ').all(|field| !field.is_empty())
}

// What follows the letter in the only field of a line that begins with it, if there is one.
fn find_field(line: &[u8], letter: u8) -> Result<Option<&[u8]>, Repeated>
    ensures { FieldRead (named letter (fields line.now)) result }
{
    let mut found = None;
    for field in line.split(|b| *b == b' ') {
        if let Some((first, text)) = field.split_first() {
            if *first == letter {
                if found.is_some() {
                    return Err(Repeated);
                }
                found = Some(text);
            }
        }
    }
    Ok(found)
}

fn cap(n: u32) -> u32
    ensures { result ≡ capped n }
{
    n.min(16385)
}

// The number that a field's text makes. By hand: a number of any length is read, and capped, where
// `parse` would refuse one that is too large.
fn read_number(text: &[u8]) -> Option<u32>
    ensures { result ≡ number_read text.now }
{
    if text.is_empty() {
        return None;
    }
    let mut value: u32 = 0;
    for byte in text {
        if !byte.is_ascii_digit() {
            return None;
        }
        value = cap(10 * value + (*byte - b'0') as u32);
    }
    Some(value)
}

// W or H of a header line.
fn read_side(line: &[u8], letter: u8) -> Option<u32>
    ensures { result ≡ side_read (named letter (fields line.now)) }
{
    read_number(find_field(line, letter).ok()??)
}

// The format that a name of C stands for.
#[tactic(auto, unfolding(crate::specs::Header::format_of))]
fn format_of(name: &[u8]) -> Option<Format>
    ensures { result ≡ known_format (format_of name.now) }
{
    let names: [(&[u8], YuvChromaSubsampling, u32); 6] = [
        (b"420jpeg", YuvChromaSubsampling::Yuv420, 8),
        (b"422", YuvChromaSubsampling::Yuv422, 8),
        (b"420p10", YuvChromaSubsampling::Yuv420, 10),
        (b"422p10", YuvChromaSubsampling::Yuv422, 10),
        (b"420p12", YuvChromaSubsampling::Yuv420, 12),
        (b"422p12", YuvChromaSubsampling::Yuv422, 12),
    ];
    let known = names.iter().find(|known| name == known.0)?;
    Some(Format {
        sampling: known.1,
        depth: known.2,
    })
}

// C of a header line, which is 420jpeg where it is absent.
fn read_colour(line: &[u8]) -> Result<Option<Format>, Repeated>
    ensures { result ≡ colour_read (named 67 (fields line.now)) }
{
    match find_field(line, b'C')? {
        Some(name) => Ok(format_of(name)),
        None => Ok(Some(Format {
            sampling: YuvChromaSubsampling::Yuv420,
            depth: 8,
        })),
    }
}

// The header of a stream.
pub fn read_header(s: &[u8]) -> Option<Header>
    ensures { result ≡ header_read s.now }
{
    let end = line_at(s, 0)?;
    let line = &s[..end];
    if !line.starts_with(b"YUV4MPEG2 ") {
        return None;
    }
    if !none_empty(line) {
        return None;
    }
    let width = read_side(line, b'W')?;
    let height = read_side(line, b'H')?;
    let format = read_colour(line).ok()?;
    Some(Header {
        width,
        height,
        format,
        past: end + 1,
    })
}

// The place of the byte 10 of the frame line at a place.
pub fn read_frame_line(s: &[u8], at: usize) -> Option<usize>
    requires { at ≤ length s.now }
    ensures { result ≡ frame_line_read s.now at }
{
    let end = line_at(s, at)?;
    let line = &s[at..end];
    if !line.starts_with(b"FRAME") {
        return None;
    }
    if find(line, b' ') != 5 {
        return None;
    }
    if none_empty(line) {
        return Some(end);
    }
    None
}
