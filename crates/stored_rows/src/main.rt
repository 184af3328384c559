// Looks for each number of the source's stored rows among the coefficients that the formula gives. Prints a line for each row: depth, range
// and matrix, the five numbers as the source has them, and `found` where `get_built_inverse_transform` gives all five, else `missing`; then how
// many of the 110 numbers were found and how many are missing.
#![tactic(auto)]

ghost use Rattle.std.specs.Prelude.{◌≡◌, ◌<◌};
ghost use Rattle.stored_rows.specs.Rows.{KeepsRule, agreeing, found_of};

use std::io;
use yuv_support::{CbCrInverseTransform, YuvMode, YuvRange, YuvStandardMatrix};

// Depth, the codes of range and matrix, then y, cr, cb, g1, g2: lists of numbers, so that one lemma computes the rule over all of them.
const ROWS: [[u32; 8]; 22] = [
    [8, 0, 0, 9539, 13075, 16525, 6660, 3209],
    [8, 1, 0, 8192, 11485, 14516, 5850, 2819],
    [8, 0, 1, 9539, 14686, 17305, 4366, 1747],
    [8, 1, 1, 8192, 12901, 15201, 3835, 1535],
    [8, 0, 2, 9539, 13752, 17545, 5328, 1535],
    [8, 1, 2, 8192, 12080, 15412, 4681, 1348],
    [8, 0, 3, 9539, 17029, 14697, 2113, 4445],
    [8, 1, 3, 8192, 14959, 12911, 1856, 3904],
    [8, 0, 4, 9539, 14511, 17322, 4558, 1748],
    [8, 1, 4, 8192, 12747, 15216, 4004, 1535],
    [10, 0, 0, 9567, 13113, 16574, 6679, 3219],
    [10, 1, 0, 8192, 11485, 14516, 5850, 2819],
    [10, 0, 1, 9567, 14729, 17356, 4378, 1752],
    [10, 1, 1, 8192, 12901, 15201, 3835, 1535],
    [10, 0, 2, 9567, 13792, 17597, 5344, 1539],
    [10, 1, 2, 8192, 12080, 15412, 4681, 1348],
    [12, 0, 0, 9574, 13123, 16586, 6684, 3221],
    [12, 1, 0, 8192, 11485, 14516, 5850, 2819],
    [12, 0, 1, 9574, 14740, 17368, 4382, 1753],
    [12, 1, 1, 8192, 12901, 15201, 3835, 1535],
    [12, 0, 2, 9574, 13802, 17610, 5348, 1540],
    [12, 1, 2, 8192, 12080, 15412, 4681, 1348],
];

// A row that the source stores, and the setting that it belongs to.
#[derive(Clone, Copy)]
struct StoredRow {
    depth: u32,
    range: YuvRange,
    matrix: YuvStandardMatrix,
    row: CbCrInverseTransform,
}

// Line k of the table.
fn line(k: usize) -> StoredRow
    requires { k < 22 }
    ensures { KeepsRule result }
{
    let line = ROWS[k];
    let range = yuv_support::range_of(line[1]);
    let matrix = yuv_support::matrix_of(line[2], 0.0, 0.0);
    StoredRow {
        depth: line[0],
        range,
        matrix,
        row: CbCrInverseTransform {
            y: line[3],
            cr: line[4],
            cb: line[5],
            g1: line[6],
            g2: line[7],
        },
    }
}

// How many of the five numbers of two rows are equal.
#[tactic(auto, unfolding(crate::specs::Rows::agreeing))]
fn agreeing(a: CbCrInverseTransform, b: CbCrInverseTransform) -> u64
    ensures { result ≡ agreeing a b }
{
    (a.y == b.y) as u64
        + (a.cr == b.cr) as u64
        + (a.cb == b.cb) as u64
        + (a.g1 == b.g1) as u64
        + (a.g2 == b.g2) as u64
}

// How many of a stored row's numbers its setting has.
#[tactic(auto, unfolding(crate::specs::Rows::found_in))]
fn found(s: StoredRow) -> u64
    ensures { result ≡ found_of s }
{
    let mode = YuvMode::AsSource;
    let row = built_coefficients::get_built_inverse_transform(s.depth, s.range, s.matrix, mode);
    row.map_or(0, |row| agreeing(s.row, row))
}

// The range as its line is printed. No `Display`: the type is yuv_support's, and so no `impl` may be here.
fn range_name(range: YuvRange) -> &'static str {
    match range {
        YuvRange::Limited => "limited",
        YuvRange::Full => "full",
    }
}

// The line of a stored row, of which n numbers were found.
fn print_row(rt: &impl Print, s: StoredRow, n: u64) -> io::Result<()> {
    let t = s.row;
    let word = if n == 5 { "found" } else { "missing" };
    print!(rt; "{} {} {:?} ", s.depth, range_name(s.range), s.matrix)?;
    println!(rt; "{} {} {} {} {} {word}", t.y, t.cr, t.cb, t.g1, t.g2)
}

// Line k; how many of its numbers were found. What cannot be written is lost, here and in `main`: the numbers are looked for all the same.
fn put_line(rt: &impl Print, k: usize) -> u64
    requires { k < 22 }
    ensures { result ≡ 5 }
{
    let s = line(k);
    let n = found(s);
    let _ = print_row(rt, s, n);
    n
}

// All lines; how many numbers were found.
fn put_lines(rt: &impl Print) -> u64
    ensures { result ≡ 110 }
{
    let mut n = 0;
    // By number: that a line keeps the rule is proved of line k, where k < 22. By `enumerate` the row beside k would go unused.
    for k in 0..ROWS.len() {
        n += put_line(rt, k);
    }
    n
}

fn main(rt: HostRuntime) {
    let _ = println!(rt; "depth range matrix y cr cb g1 g2");
    let n = put_lines(&rt);
    let _ = println!(rt; "{n} found, {} missing", 110 - n);
}
