// Replays a list of calls that read YUV4MPEG2 streams, with their answers, and prints how many were compared and how many differ. Of each
// all nine numbers of the answer are compared and every element of the three planes, the kept ones too.
// The list is the file `stdin` beside src/. tests/oracle made it by its second reading of document 02: cargo run --offline --release --bin
// y4m_vectors.
// A call is 18 numbers of 8 bytes, the high byte first, then the bytes of the stream, then the elements of the Y, U and V planes after the
// call, one byte each in kind 1 and two, the high byte first, in kind 2. The numbers: 0 the kind, 0 for the header alone, 1 for a read into
// planes of bytes, 2 into planes of u16; 1 the stream's length; 2 the place; 3 to 5 the strides of Y, U and V; 6 to 8 their lengths, 0 in
// kind 0; 9 to 12 number, expected, received and next; 13 to 17 width, height, sampling, depth and found. Before the call every element is
// 170.
#![tactic(auto)]

mod call;
mod list;

use call::Call;
use list::List;
use std::alloc::{AllocError, Global};
use std::io::{ErrorKind, Read};

// As many bytes of a list are read. A longer one is cut, and the count of answers shows it.
const ROOM: u64 = 131072;

// For each call of the list, whether it is answered as the list says. One that the list's end cuts off is not.
fn replay(alloc: Global, mut list: List<'_>) -> Result<Vec<bool>, AllocError> {
    let mut answers = Vec::new(alloc);
    // A `for` over at most 2^64 - 1 calls and no `while`: no contract of `Call::read` says that the list gets shorter, so that a `while`
    // ends.
    for _ in 0..u64::MAX {
        if list.is_empty() {
            break;
        }
        let same = match Call::read(&mut list) {
            Some(call) => call.is_answered(alloc, &mut list)?,
            None => false,
        };
        answers.push(same)?;
    }
    Ok(answers)
}

// What cannot be written is lost, and the status is 0 all the same.
fn main(rt: HostRuntime) -> Result<(), AllocError> {
    let mut list = Vec::new(rt.alloc());
    // A read that fails ends the list, except where memory has run out.
    if let Err(e) = rt.stdin().take(ROOM).read_to_end(&mut list) {
        if e.kind() == ErrorKind::OutOfMemory {
            return Err(AllocError);
        }
    }
    let answers = replay(rt.alloc(), List::new(&list))?;
    let compared = answers.len();
    let different = answers.iter().filter(|same| !**same).count();
    let _ = println!(rt; "answers: {compared} compared, {different} different");
    Ok(())
}
