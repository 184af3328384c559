// The sheet of document 01: reads standard input and writes a table of red, green and blue with what was clipped, or a refusal.
#![tactic(auto)]

ghost use Rattle.std.specs.Prelude.{◌≡◌, ◌++◌, OnOk, IfSome, take};
ghost use Rattle.std.specs.Io.KnownBytes.{Appends};
ghost use Rattle.sheet_text.specs.Sheet.{sheet_of};

use std::alloc::Global;
use std::io;
use std::io::{ErrorKind, Read, Write};

// What a reader has, behind what the input has: up to one byte more than a sheet may have, so that a longer input is seen to be longer.
// Where a read fails, the input has what was read before that.
pub fn read_input<R: Read + Drop>(from: R, input: &mut Vec<u8>) -> io::Result<()>
    ensures { OnOk result (IfSome (R.remaining from) (λ xs.
        input.new.items ≡ input.old.items ++ take 65537 xs)) }
{
    from.take(65537).read_to_end(input)?;
    Ok(())
}

// The sheet of an input, written.
pub fn write_answer<W: Write>(input: &[u8], to: &mut W) -> io::Result<()>
    ensures { OnOk result (Appends (W.contents to.old) (W.contents to.new) (sheet_of input.now)) }
{
    let mut output = [0u8; sheet_text::PAGE];
    let count = sheet_text::sheet_text(input, &mut output);
    to.write_all(&output[..count])
}

// Where it succeeds, what is written is the sheet of what was there to read. Where a read
// fails, it is the sheet of what was read before that; where memory runs out, nothing is written.
pub fn answer<R: Read + Drop, W: Write>(alloc: Global, from: R, to: &mut W) -> io::Result<()>
    ensures { OnOk result (IfSome (R.remaining from) (λ xs. Appends (W.contents to.old)
        (W.contents to.new) (sheet_of (take 65537 xs)))) }
{
    let mut input = Vec::new(alloc);
    match read_input(from, &mut input) {
        Ok(()) => write_answer(&input, to),
        Err(e) => {
            if e.kind() != ErrorKind::OutOfMemory {
                write_answer(&input, to)?;
            }
            Err(e)
        }
    }
}

// The status is 0 also where something cannot be read or written, except where memory has run out.
fn main(rt: HostRuntime) -> io::Result<()> {
    if let Err(e) = answer(rt.alloc(), rt.stdin(), &mut io::writer(&rt)) {
        if e.kind() == ErrorKind::OutOfMemory {
            return Err(e);
        }
    }
    Ok(())
}
