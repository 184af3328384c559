// The sheet of document 01 as a function from the bytes that are read to the bytes that are written.
// A text and a place in it stay two parameters: the definitions count places from the begin.
#![tactic(auto)]

ghost use Rattle.std.specs.Prelude.{◌≡◌, ◌&&◌, ◌≤◌, ◌<◌, length, is_some, IfSome, IfOk};
ghost use Rattle.std.proofs.lemmas.List.Edits.{sets};
ghost use Rattle.sheet_writing.specs.Text.{Wrote};
ghost use Rattle.sheet_numbers.specs.Numbers.{are_lines};
ghost use Rattle.sheet_numbers.specs.Read.{Lined};
ghost use Rattle.sheet_values.specs.Values.{widest};
ghost use Rattle.sheet_values.specs.Known.{number_of};
ghost use Rattle.sheet_picture.specs.Samples.{Samples};
ghost use Rattle.sheet_text.specs.Sheet.{has_planes, is_whole, refusal, sheet_of};
ghost use Rattle.sheet_text.specs.Answer.{PlanesAsk, PlanesRead, start_of, printed};

use sheet_numbers::{Lines, read_lines};
use sheet_picture::lent::put_picture;
use sheet_picture::{Planes, Sheet};
pub use sheet_table::PAGE;
use sheet_values::{Known, Refusal, Values};
use sheet_writing::lent::{put_bytes, put_number};

// The values of the second line, and the place after it.
#[derive(Clone, Copy)]
struct Start {
    values: Values,
    at: usize,
}

// A plane of a sheet and the place after its lines. Its numbers are the first ones of an array, here and below, since the library uses no
// heap.
#[derive(Drop)]
struct Plane {
    numbers: [u32; 4096],
    next: usize,
}

// Question 15 of the first two lines: the line of names, then seven numbers.
fn read_values(s: &[u8]) -> Result<Start, Refusal>
    ensures answer { result ≡ start_of s.now }
    ensures within { IfOk result (λ t. t.at ≤ length s.now) }
{
    if !s.starts_with(b"depth sampling order range matrix width height\n") {
        return Err(Refusal::Malformed);
    }
    let line = Lines {
        count: 7,
        width: 7,
        limit: 99999,
    };
    let mut numbers = [0u32; 7];
    let at = read_lines(s, 47, line, &mut numbers).ok_or(Refusal::Malformed)?;
    Ok(Start {
        values: Values::from(numbers),
        at,
    })
}

// The numbers of a plane, the first ones of an array, where its lines stand well formed from a place on; and the place after them.
fn read_plane(s: &[u8], at: usize, lines: Lines) -> Option<Plane>
    requires place { at ≤ length s.now }
    requires width { 0 < lines.width }
    requires room { lines.count ≤ 4096 }
    ensures answer { is_some result ≡ are_lines s.now at lines.width lines.limit lines.count }
    ensures lined { IfSome result (λ p. Lined s.now at lines.width lines.limit lines.count p.numbers
        p.next) }
{
    let mut numbers = [0u32; 4096];
    let next = read_lines(s, at, lines, &mut numbers)?;
    Some(Plane { numbers, next })
}

// All rows of Y, U and V, where they stand well formed from a place on, with nothing over.
fn read_planes(s: &[u8], at: usize, known: Known) -> Option<Planes>
    requires { PlanesAsk s.now at known.values }
    ensures answer { is_some result
        ≡ (has_planes s.now known.values && is_whole s.now known.values) }
    ensures planes { IfSome result (λ p. PlanesRead s.now known.values p.y p.u p.v) }
    ensures samples { IfSome result (λ p. Samples (widest known.values) known.values p.y p.u p.v) }
{
    let values = known.values;
    let limit = values.widest();
    let luma = Lines {
        count: values.luma_count(),
        width: values.width as usize,
        limit,
    };
    let chroma = Lines {
        count: known.chroma_count(),
        width: images::chroma_width(values.width) as usize,
        limit,
    };
    let Plane { numbers: y, next } = read_plane(s, at, luma)?;
    let Plane { numbers: u, next } = read_plane(s, next, chroma)?;
    let Plane { numbers: v, next } = read_plane(s, next, chroma)?;
    if next == s.len() && next <= 65536 {
        return Some(Planes { y, u, v });
    }
    None
}

// Question 15 of the first two lines, 1 and 2, and 15 of the rest.
fn read_sheet(s: &[u8]) -> Result<Sheet, Refusal>
    ensures { printed result ≡ sheet_of s.now }
{
    let start = read_values(s)?;
    let values = start.values;
    let settings = values.settings()?;
    let known = Known { values, settings };
    if !values.is_small() {
        return Err(Refusal::Malformed);
    }
    let planes = read_planes(s, start.at, known).ok_or(Refusal::Malformed)?;
    Ok(Sheet { known, planes })
}

// The line of a refusal, at the begin of the output.
#[tactic(auto, unfolding(crate::specs::Sheet::refusal))]
fn put_refusal(out: &mut [u8; PAGE], why: Refusal) -> usize
    ensures written { Wrote out.old 0 (refusal (number_of why)) out.new result }
    ensures fits { result ≤ 131072 }
{
    let at = put_bytes(out, 0, b"refused ");
    put_number(out, at, u32::from(why), b'\n')
}

// The table of a sheet that was read, or the line of a refusal, at the begin of the output. Not by way of a `Page`, which would be cleared and
// copied for each call.
fn put_text(out: &mut [u8; PAGE], read: Result<Sheet, Refusal>) -> usize
    ensures written { Wrote out.old 0 (printed read) out.new result }
    ensures fits { result ≤ 131072 }
{
    match read {
        Ok(sheet) => {
            let Planes { y, u, v } = &sheet.planes;
            put_picture(out, sheet.known.values, y, u, v)
        }
        Err(why) => put_refusal(out, why),
    }
}

// The sheet of an input of any length. A public function that stays as it was, with the output lent and a count as its answer. What is
// written stands at the begin of the output, whose other bytes are kept; the answer is how many bytes that is. No sheet takes more bytes than
// the output has.
pub fn sheet_text(input: &[u8], output: &mut [u8; PAGE]) -> usize
    ensures length { result ≡ length (sheet_of input.now) }
    ensures text { output.new ≡ sets output.old 0 (sheet_of input.now) }
    ensures fits { result ≤ 131072 }
{
    put_text(output, read_sheet(input))
}
