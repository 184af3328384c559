// The samples of a row as they are lent, room to work in, and chroma at the columns of pairs of any samples.
ghost use Rattle.std.specs.Prelude.{◌≡◌, ◌*◌, ◌≤◌, ◌<◌, length};
ghost use Rattle.numerics.specs.Row.{Begun};
ghost use Rattle.std.proofs.Math.ListN.{replicate};
ghost use Rattle.blocks.specs.Source.{blended, part_of, tailed_fit};

use crate::tailed::{put_tail, write_pair};
use numerics::Kernel;
use sample::{Sample, read};

// A near and a far row of chroma samples, and the sample at the tail's columns. In
// `numerics::tail_at` they are two slices, since the tail's sample is made from them.
#[derive(Clone, Copy)]
pub struct ChromaRows<'a, S> {
    pub near: &'a [S],
    pub far: &'a [S],
    pub tail: S,
}

// The samples of a row: luma, and the chroma of the first and of the third letter.
#[derive(Clone, Copy)]
pub struct Source<'a, S> {
    pub y: &'a [S],
    pub first: ChromaRows<'a, S>,
    pub third: ChromaRows<'a, S>,
}

// Room to work in, for up to 256 pairs: for the chroma of their columns, for the sums of near and far samples, and for words of counts.
// Arrays, since the library uses no heap.
#[derive(Drop)]
pub struct Scratch<S> {
    pub p: [S; 512],
    pub q: [S; 512],
    pub words: [u16; 512],
    pub sums: [u16; 257],
}

impl<S: Sample> Scratch<S> {
    // All 0.
    pub fn new() -> Scratch<S>
        ensures chroma { (S.numbers result.p ≡ replicate 512 0) × (S.numbers result.q ≡ replicate 512 0) }
        ensures counts { (result.words ≡ replicate 512 0) × (result.sums ≡ replicate 257 0) }
    {
        let zero = S::from_u16(0);
        Scratch {
            p: [zero; 512],
            q: [zero; 512],
            words: [0; 512],
            sums: [0; 257],
        }
    }
}

// How a pixel is stored: by a kernel, in three or four letters. The kernel is first, so that a copy loads what was stored in the same pieces.
// The number of letters, 3 or 4, is a number, since places are letters·column; in a block's loops it is a const parameter. That it is one of
// the two is asked with the room of a row (`RowFits` and those below it) or of a pixel (`interpolate::singles`), and is no ghost field: where
// it is a const parameter there are no `Pixels`. What a kernel is at a width is asked for, and is no ghost field: a block of u16 samples goes
// on with the kernel as it is or lowered, of which other facts hold.
#[derive(Clone, Copy)]
pub struct Pixels {
    pub k: Kernel,
    pub letters: usize,
}

// Chroma at the columns of n pairs, of any samples. Room is asked for, and is no type: a narrow row lends 16 places, and a group 512. n goes
// beside the rows, since those of a narrow row may be longer.
pub fn blend_any<S: Sample>(d: &mut [S], rows: &ChromaRows<'_, S>, n: usize, half: u32)
    requires room { 2 * n ≤ length (S.numbers d.old) }
    requires near { n < length (S.numbers rows.now.near.now) }
    requires far { n < length (S.numbers rows.now.far.now) }
    requires half { half ≡ 8 }
    ensures { blended S.numbers rows.now d.old d.new n }
{
    // By index: a turn writes two places. A loop over chunks_exact_mut does not say what it wrote, and by one over the samples narrow rows
    // take 1.16 times as long.
    for j in 0..n {
        let a = numerics::column16(read(rows.near, j), read(rows.far, j));
        let b = numerics::column16(read(rows.near, j + 1), read(rows.far, j + 1));
        let l = numerics::chroma16(a, b, half);
        let r = numerics::chroma16(b, a, half);
        write_pair(d, 2 * j, l, r);
    }
}

// Chroma at the columns of n pairs, of any samples. The last is the tail where `near` ends with it. A function beside `tailed::blend_tailed`,
// since that of small samples needs room for sums, and any samples need `half`. It is public, and room is asked for as it was.
pub fn any_tailed<S: Sample>(d: &mut [S], rows: &ChromaRows<'_, S>, n: usize, half: u32)
    requires room { 2 * n ≤ length (S.numbers d.old) }
    requires fit { tailed_fit S.numbers n rows.now }
    requires half { half ≡ 8 }
    ensures { Begun (part_of S.numbers S.number rows.now) (S.numbers d.old) (S.numbers d.new) (2 * n) }
{
    let some = rows.near.len() - 1;
    blend_any(d, rows, some, half);
    put_tail(d, rows.tail, some, n);
}
