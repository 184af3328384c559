// Replays stored answers of the Rust through the public entries, each as a whole conversion and in bands, and prints how many were compared
// and how many differ. The bands are converted from chroma that was woven and taken apart again.
// The list is the file `stdin` beside src/: a line of column names, then a line of 36 numbers for each call. tests/oracle made it by
// running the Rust: cargo run --offline --release --bin vectors.
// Columns: 0 to 6 the codes; 7, 8 the bits of kr and kb; 9, 10 the sides; 11 to 14 the strides of Y, U, V and the destination; 15 to 18
// their lengths; 19 to 21 how they are filled. Then the answer: 22 to 24 number, expected, received; 25, 26 below and above; 27 a sum
// over every destination element after the call, kept ones included; 28 to 35 the settings used. The Rust has one name for questions 9
// to 12: there the number is that of the first "no". Samples in the high bits (packing 1) were divided for the Rust, and stand undivided
// here. Below and above, and in matched mode (mode 1) the whole answer, are those of the second reading of documents 01 and 02 in
// tests/oracle: the Rust does not count, and has no such mode.
#![tactic(auto)]

mod call;
mod replay;
mod samples;

use call::{Call, Columns};
use std::alloc::Global;
use std::io;
use std::io::{ErrorKind, Read};

// As many bytes of a list are read. A longer one is cut, and the count of answers shows it.
const ROOM: u64 = 524288;

// Whether a call's answer and the settings used are those of the list.
fn is_answered(alloc: Global, call: &Call) -> io::Result<bool> {
    if !call.has_settings() {
        return Ok(false);
    }
    if call.depth == 8 {
        replay::is_same::<u8>(alloc, call)
    } else {
        replay::is_same::<u16>(alloc, call)
    }
}

// For each call of the list, whether it is answered as the list says. The names of the columns come first, which are as many as a call's
// numbers and are no call.
fn replay_all(alloc: Global, mut list: Columns<'_>) -> io::Result<Vec<bool>> {
    let mut answers = Vec::new(alloc);
    let _names = Call::read(&mut list);
    // A `for` over at most 2^64 - 1 calls and no `while`: no contract of `Call::read` says that the list gets shorter, so that a `while`
    // ends.
    for _ in 0..u64::MAX {
        if list.is_empty() {
            break;
        }
        let call = Call::read(&mut list);
        answers.push(is_answered(alloc, &call)?)?;
    }
    Ok(answers)
}

// What cannot be written is lost, and the status is 0 all the same.
fn main(rt: HostRuntime) -> io::Result<()> {
    let mut list = Vec::new(rt.alloc());
    // A read that fails ends the list, except where memory has run out.
    if let Err(e) = rt.stdin().take(ROOM).read_to_end(&mut list) {
        if e.kind() == ErrorKind::OutOfMemory {
            return Err(e);
        }
    }
    let answers = replay_all(rt.alloc(), Columns::new(&list))?;
    let compared = answers.len();
    let different = answers.iter().filter(|same| !**same).count();
    let _ = println!(rt; "answers: {compared} compared whole and in bands, {different} different");
    Ok(())
}
