// Letters of byte samples. Two letters are stored as one word, two samples are read as one, so that the compiler works in 16-bit lanes.
ghost use Rattle.std.specs.Prelude.{◌≡◌, ◌⊎◌, [], ◌∷◌, ℕ, ◌+◌, ◌*◌, ◌/◌, ◌%◌, ◌≤◌, length};
ghost use Rattle.std.proofs.lemmas.List.Edits.{sets};
ghost use Rattle.numerics.specs.Kernel.{letters_at, Bytes};
ghost use Rattle.numerics.specs.Row.{Small, Filled, BlockFits};
ghost use Rattle.blocks.specs.Kernels.{bytes_max};
ghost use Rattle.blocks.specs.Parts.{lettered, pair_letters, pair_words};

use crate::block::Block;
use crate::chroma::{Pixels, Scratch, Source};
use crate::tailed::blend_tailed;
use numerics::{Kernel, Letters};
use sample::Sample;
use yuv_support::Clipped;

// Two letters, or a letter and alpha, as one word. shift is 256, a number of run time, so that the compiler stores the word whole.
fn word(low: u16, high: u16, shift: u16) -> u16
    requires { (low ≤ 255) × (high ≤ 255) × (shift ≡ 256) }
    ensures { (result % 256 ≡ low) × (result / 256 ≡ high) }
{
    low + shift * high
}

// The functions that store take a row and a place in it: a part would have to be cut, and its length tested, for each pair.
fn store2(row: &mut [u8], place: usize, w: u16)
    requires { place + 2 ≤ length row.old }
    ensures { row.new ≡ sets row.old place (w % 256 ∷ w / 256 ∷ []) }
{
    row[place] = (w % 256) as u8;
    row[place + 1] = (w / 256) as u8;
}

// Three words, or four. Each is written out: with one function over `[u16; N]`, which stores them in a loop, frames of bytes take 2.2 times
// as long to RGBA, and as long as these to RGB.
fn store6(row: &mut [u8], place: usize, a: u16, b: u16, c: u16)
    requires { place + 6 ≤ length row.old }
    ensures { row.new ≡ sets row.old place (a % 256 ∷ a / 256 ∷ b % 256 ∷ b / 256 ∷ c % 256 ∷ c / 256 ∷ []) }
{
    store2(row, place, a);
    store2(row, place + 2, b);
    store2(row, place + 4, c);
}

fn store8(row: &mut [u8], place: usize, a: u16, b: u16, c: u16, e: u16)
    requires { place + 8 ≤ length row.old }
    ensures { row.new ≡ sets row.old place (a % 256 ∷ a / 256 ∷ b % 256 ∷ b / 256 ∷ c % 256 ∷ c / 256 ∷ e % 256 ∷ e / 256 ∷ []) }
{
    store6(row, place, a, b, c);
    store2(row, place + 6, e);
}

// A pixel's letters, which are bytes.
pub fn pixel(k: Kernel, y: u16, p: u16, q: u16) -> Letters
    requires { Bytes k × (y ≤ 255) × (p ≤ 255) × (q ≤ 255) }
    ensures letters { result ≡ letters_at k y p q }
    ensures fit { (result.first ≤ 255) × (result.green ≤ 255) × (result.third ≤ 255) }
    ensures few { (result.below ≤ 3) × (result.above ≤ 3) }
{
    numerics::pixel(k, p, q, y)
}

// The word of counts of a pair.
fn tally(a: Letters, b: Letters) -> u16
    requires { (a.below ≤ 3) × (a.above ≤ 3) × (b.below ≤ 3) × (b.above ≤ 3) }
    ensures { result ≡ a.below + 256 * a.above + (b.below + 256 * b.above) }
{
    (a.below + b.below) + 256 * (a.above + b.above)
}

// The letters of pair i, and its word of counts. `y`, `p` and `q` stay three slices, here, in `words` and in `interpolate::singles`: luma is
// a row of a `Source`, and chroma is lent by a `Scratch` or by two small arrays.
fn pair<const LETTERS: usize>(
    row: &mut [u8],
    y: &[u8],
    p: &[u8],
    q: &[u8],
    i: usize,
    k: Kernel,
) -> u16
    requires letters { (LETTERS ≡ 3) ⊎ (LETTERS ≡ 4) }
    requires places { LETTERS * (2 * i) + (LETTERS + LETTERS) ≤ length row.old }
    requires kernel { Bytes k }
    requires luma { 2 * i + 2 ≤ length y.now }
    requires chroma { (2 * i + 2 ≤ length p.now) × (2 * i + 2 ≤ length q.now) }
    ensures row { row.new ≡ sets row.old (LETTERS * (2 * i)) (pair_letters k LETTERS y.now p.now q.now i) }
    ensures counts { result ≡ pair_words k y.now p.now q.now i }
{
    // 0 and 256 as numbers of run time.
    let zero = (k.max - 255) as u32;
    let shift = k.max + 1;
    let place = LETTERS * (2 * i);
    let u = u8::two(p, 2 * i, zero);
    let v = u8::two(q, 2 * i, zero);
    let w = u8::two(y, 2 * i, zero);
    let a = pixel(k, w.first as u16, u.first as u16, v.first as u16);
    let b = pixel(k, w.second as u16, u.second as u16, v.second as u16);
    let first = word(a.first, a.green, shift);
    if LETTERS == 3 {
        let second = word(a.third, b.first, shift);
        let third = word(b.green, b.third, shift);
        store6(row, place, first, second, third);
    } else {
        let second = word(a.third, k.max, shift);
        let third = word(b.first, b.green, shift);
        let fourth = word(b.third, k.max, shift);
        store8(row, place, first, second, third, fourth);
    }
    tally(a, b)
}

fn pairs<const LETTERS: usize>(
    row: &mut [u8],
    y: &[u8],
    p: &[u8],
    q: &[u8],
    words: &mut [u16],
    eights: usize,
    k: Kernel,
)
    requires kernel { Bytes k }
    requires fits { BlockFits LETTERS (16 * eights) (8 * eights) row.old y.now p.now q.now words.old }
    ensures row { row.new ≡ lettered k LETTERS y.now p.now q.now row.old }
    ensures counts { Filled (8 * eights) (pair_words k y.now p.now q.now) words.new }
{
    let n = 8 * eights;
    // The rows go by the number of the word: of what a loop over a zip with `iter_mut` writes nothing is known, and the place needs the number.
    for (i, word) in words[..n].iter_mut().enumerate() {
        *word = pair::<LETTERS>(row, y, p, q, i, k);
    }
}

// The letters of eight pairs `eights` times, three or four to the pixel, and a word of counts for each pair.
pub fn block(
    row: &mut [u8],
    y: &[u8],
    p: &[u8],
    q: &[u8],
    words: &mut [u16],
    eights: usize,
    pixels: Pixels,
)
    requires kernel { Bytes pixels.k }
    requires fits { BlockFits pixels.letters (16 * eights) (8 * eights)
        row.old y.now p.now q.now words.old }
    ensures row { row.new ≡ lettered pixels.k pixels.letters y.now p.now q.now row.old }
    ensures counts { Filled (8 * eights) (pair_words pixels.k y.now p.now q.now) words.new }
{
    let k = pixels.k;
    if pixels.letters == 3 {
        pairs::<3>(row, y, p, q, words, eights, k);
    } else {
        pairs::<4>(row, y, p, q, words, eights, k);
    }
}

// Bytes are below 4,096. It does nothing: the prover knows the bound of a slice that is a parameter, and not of one in a struct.
fn small_bytes(xs: &[u8])
    ensures { Small (length xs.now) xs.now }
{}

impl Block for u8 {
    ghost kernel = { Bytes };

    ghost max_fits = { bytes_max };

    ghost half_is = { λ k b. b.half };

    fn pixel(k: Kernel, y: u16, p: u16, q: u16) -> Letters {
        pixel(k, y, p, q)
    }

    fn convert(
        row: &mut [u8],
        source: &Source<'_, u8>,
        scratch: &mut Scratch<u8>,
        eights: usize,
        done: usize,
        pixels: Pixels,
    ) -> Clipped {
        let first = source.first;
        let third = source.third;
        small_bytes(first.near);
        small_bytes(first.far);
        small_bytes(third.near);
        small_bytes(third.far);
        let n = 8 * eights;
        blend_tailed(&mut scratch.p, &mut scratch.sums, &first, n);
        blend_tailed(&mut scratch.q, &mut scratch.sums, &third, n);
        let p = &scratch.p;
        let q = &scratch.q;
        block(row, source.y, p, q, &mut scratch.words, eights, pixels);
        numerics::counted(&scratch.words[done..n])
    }
}
