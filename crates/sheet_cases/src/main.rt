// Further sheets, printed with a name before each: refusals 1, 2 and 15 in several ways, every depth and sampling, the largest sides, damaged
// lines, bytes that are no text, and inputs above 64 KiB.
#![tactic(auto)]

mod cases;
mod large;

use cases::{CASES, Input};
use large::LARGE;
use std::alloc::Global;
use std::io;
use std::io::Write;

// The line that a sheet begins with.
const NAMES: &str = "depth sampling order range matrix width height\n";

// One byte more than a sheet may have.
const TOO_LONG: usize = 65537;

// A sheet's text, after its name.
fn show(rt: &impl Print, name: &str, sheet: &[u8]) -> io::Result<()> {
    let mut output = [0u8; sheet_text::PAGE];
    let n = sheet_text::sheet_text(sheet, &mut output);
    print!(rt; "{name}: ")?;
    io::writer(rt).write_all(&output[..n])
}

// Of a large sheet the number of bytes is printed, and a sum of them in which their places count.
fn show_sum(rt: &impl Print, name: &str, sheet: &[u8]) -> io::Result<()> {
    let mut output = [0u8; sheet_text::PAGE];
    let n = sheet_text::sheet_text(sheet, &mut output);
    let sum = output
        .iter()
        .take(n)
        .enumerate()
        .fold(0u64, |sum, (place, byte)| {
            sum.wrapping_add(u64::from(*byte).wrapping_mul(place as u64 % 251 + 1))
        });
    println!(rt; "{name}: {n} bytes, sum {sum}")
}

// A sheet that begins with the line of names.
fn named(alloc: Global, rest: &str) -> io::Result<Vec<u8>> {
    let mut sheet = Vec::from_slice(alloc, NAMES.as_bytes())?;
    sheet.extend_from_slice(rest.as_bytes())?;
    Ok(sheet)
}

fn show_all(rt: &HostRuntime, cases: &[(&str, Input)]) -> io::Result<()> {
    for &(name, input) in cases {
        match input {
            Input::Named(rest) => show(rt, name, &named(rt.alloc(), rest)?)?,
            Input::Bytes(sheet) => show(rt, name, sheet)?,
        }
    }
    Ok(())
}

fn show_large(rt: &HostRuntime) -> io::Result<()> {
    for case in &LARGE {
        show_sum(rt, case.name, &case.sheet(rt.alloc())?)?;
    }
    Ok(())
}

// A sheet with bytes over: one, and as many as make the input longer than 64 KiB.
fn show_over(rt: &HostRuntime) -> io::Result<()> {
    let mut sheet = LARGE[0].sheet(rt.alloc())?;
    sheet.push(0)?;
    show(rt, "a byte 0 over", &sheet)?;
    sheet.resize(TOO_LONG, 0)?;
    show(rt, "65,537 bytes", &sheet)
}

// Two lines and bytes 0, longer than 64 KiB: questions 1 and 2 are asked all the same.
fn show_long(rt: &HostRuntime, name: &str, values: &str) -> io::Result<()> {
    let mut sheet = named(rt.alloc(), values)?;
    sheet.resize(TOO_LONG, 0)?;
    show(rt, name, &sheet)
}

// What cannot be written is lost, and the status is 0 all the same.
fn main(rt: HostRuntime) {
    let _ = show_all(&rt, &CASES);
    let _ = show_large(&rt);
    let _ = show_over(&rt);
    let _ = show_long(&rt, "65,537 bytes with sampling 2", "8 2 0 0 0 1 1\n");
    let _ = show_long(&rt, "65,537 bytes with matrix 7", "8 0 0 0 7 1 1\n");
}
