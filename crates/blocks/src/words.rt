// Letters of u16 samples: in 16-bit lanes where all samples are below 4,096, and in 32-bit lanes for any samples.
// Which of the two (QUICK) is a const bool, and no closure or trait: it is chosen once for a group, and each loop is compiled for it. A trait
// with two empty types would say the same in more words.
ghost use Rattle.std.specs.Prelude.{◌≡◌, ◌⊎◌, true, ℕ, ◌+◌, ◌*◌, ◌≤◌, length};
ghost use Rattle.std.proofs.lemmas.List.Edits.{sets};
ghost use Rattle.numerics.specs.Kernel.{letters_at, Words};
ghost use Rattle.numerics.specs.Row.{stored, word_at, Small, Filled, BlockFits};
ghost use Rattle.blocks.specs.Kernels.{words_max};
ghost use Rattle.blocks.specs.Parts.{lettered, pixel_words, small_columns, Chosen};
ghost use Rattle.blocks.specs.Source.{words_fit, word_letters, word_counts, few_chroma, SmallChroma};

use crate::block::Block;
use crate::chroma::{ChromaRows, Pixels, Scratch, Source, any_tailed};
use crate::tailed::blend_tailed;
use numerics::{Kernel, Letters};
use yuv_support::Clipped;

// ---- how large the samples are

// A sum that is above 0 if a sample is 4,096 or more. It is a number and no yes or no: with `.iter().all(|s| *s < 4096)` and `&&` in its
// place frames of u16 samples take 1.45 times as long.
fn beyond(samples: &[u16]) -> u16
    requires { length samples.now ≤ 512 }
    ensures { (result ≤ 7680) × (result ≡ 0 → Small (length samples.now) samples.now) }
{
    let mut sum: u16 = 0;
    for sample in samples {
        sum += sample / 4096;
    }
    sum
}

// True only if all samples of luma and of four rows of chroma, and the tails', are below 4,096.
pub fn is_small(y: &[u16], first: &ChromaRows<'_, u16>, third: &ChromaRows<'_, u16>) -> bool
    requires { (length y.now ≤ 512) × few_chroma first.now × few_chroma third.now }
    ensures { result ≡ true → Small (length y.now) y.now × SmallChroma first.now × SmallChroma third.now }
{
    let a = beyond(first.near) + beyond(first.far) + first.tail / 4096;
    let b = beyond(third.near) + beyond(third.far) + third.tail / 4096;
    beyond(y) + a + b == 0
}

// ---- letters

// The letters of a pixel: by the signed sums where all samples are below 4,096 (QUICK), and else by those for any samples.
fn pixel<const QUICK: bool>(k: Kernel, y: u16, p: u16, q: u16) -> Letters
    requires kernel { Chosen QUICK k ((y ≤ 4095) × (p ≤ 4095) × (q ≤ 4095)) }
    ensures { result ≡ letters_at k y p q }
{
    if QUICK {
        return numerics::pixel(k, p, q, y);
    }
    numerics::pixel16(k, y, p, q)
}

// The letters of one pixel, from a place on, and its word of counts. A row and a place in it, as in `bytes`.
fn put<const QUICK: bool, const LETTERS: usize>(
    row: &mut [u16],
    place: usize,
    y: u16,
    p: u16,
    q: u16,
    k: Kernel,
) -> u16
    requires letters { (LETTERS ≡ 3) ⊎ (LETTERS ≡ 4) }
    requires inside { place + LETTERS ≤ length row.old }
    requires kernel { Chosen QUICK k ((y ≤ 4095) × (p ≤ 4095) × (q ≤ 4095)) }
    ensures row { row.new ≡ sets row.old place (stored k LETTERS y p q) }
    ensures counts { result ≡ word_at k y p q }
{
    let a = pixel::<QUICK>(k, y, p, q);
    row[place] = a.first;
    row[place + 1] = a.green;
    row[place + 2] = a.third;
    if LETTERS == 4 {
        row[place + 3] = k.max;
    }
    a.below + 256 * a.above
}

fn put_all<const QUICK: bool, const LETTERS: usize>(
    row: &mut [u16],
    y: &[u16],
    p: &[u16],
    q: &[u16],
    words: &mut [u16],
    eights: usize,
    k: Kernel,
)
    requires fits { BlockFits LETTERS (8 * eights) (8 * eights) row.old y.now p.now q.now words.old }
    requires kernel { Chosen QUICK k (small_columns (8 * eights) y.now p.now q.now) }
    ensures row { row.new ≡ lettered k LETTERS y.now p.now q.now row.old }
    ensures counts { Filled (8 * eights) (pixel_words k y.now p.now q.now) words.new }
{
    let n = 8 * eights;
    // By number, as in `bytes::pairs`.
    for (i, word) in words[..n].iter_mut().enumerate() {
        *word = put::<QUICK, LETTERS>(row, LETTERS * i, y[i], p[i], q[i], k);
    }
}

// The letters of eight pixels `eights` times, three or four to the pixel, and a word of counts for each.
pub fn block<const QUICK: bool>(
    row: &mut [u16],
    y: &[u16],
    p: &[u16],
    q: &[u16],
    words: &mut [u16],
    eights: usize,
    pixels: Pixels,
)
    requires fits { BlockFits pixels.letters (8 * eights) (8 * eights)
        row.old y.now p.now q.now words.old }
    requires kernel { Chosen QUICK pixels.k (small_columns (8 * eights) y.now p.now q.now) }
    ensures row { row.new ≡ lettered pixels.k pixels.letters y.now p.now q.now row.old }
    ensures counts { Filled (8 * eights) (pixel_words pixels.k y.now p.now q.now) words.new }
{
    let k = pixels.k;
    if pixels.letters == 3 {
        put_all::<QUICK, 3>(row, y, p, q, words, eights, k);
    } else {
        put_all::<QUICK, 4>(row, y, p, q, words, eights, k);
    }
}

// ---- parts of rows

// Eight pairs `eights` times, of parts of the rows, by the quick loops where all samples are below 4,096, and else by those for any samples.
// The last pair is the tail where the parts end with it.
fn letters_of_parts(
    row: &mut [u16],
    source: &Source<'_, u16>,
    scratch: &mut Scratch<u16>,
    eights: usize,
    pixels: Pixels,
)
    requires kernel { Words pixels.k }
    requires parts_fit { words_fit pixels.letters eights row.old source.now }
    requires eights { eights ≤ 32 }
    requires some { 1 ≤ eights }
    ensures row { row.new ≡ word_letters pixels source.now row.old }
    ensures counts { Filled (2 * (8 * eights)) (word_counts pixels.k source.now) scratch.new.words }
{
    let k = pixels.k;
    let letters = pixels.letters;
    let n = 8 * eights;
    let first = source.first;
    let third = source.third;
    if is_small(source.y, &first, &third) {
        let low = Pixels {
            letters,
            k: numerics::lower(k),
        };
        blend_tailed(&mut scratch.p, &mut scratch.sums, &first, n);
        blend_tailed(&mut scratch.q, &mut scratch.sums, &third, n);
        let p = &scratch.p;
        let q = &scratch.q;
        block::<true>(row, source.y, p, q, &mut scratch.words, 2 * eights, low);
    } else {
        any_tailed(&mut scratch.p, &first, n, k.half);
        any_tailed(&mut scratch.q, &third, n, k.half);
        let p = &scratch.p;
        let q = &scratch.q;
        block::<false>(row, source.y, p, q, &mut scratch.words, 2 * eights, pixels);
    }
}

impl Block for u16 {
    ghost kernel = { Words };

    ghost max_fits = { words_max };

    ghost half_is = { λ k w. w.half };

    fn pixel(k: Kernel, y: u16, p: u16, q: u16) -> Letters {
        numerics::pixel16(k, y, p, q)
    }

    fn convert(
        row: &mut [u16],
        source: &Source<'_, u16>,
        scratch: &mut Scratch<u16>,
        eights: usize,
        done: usize,
        pixels: Pixels,
    ) -> Clipped {
        letters_of_parts(row, source, scratch, eights, pixels);
        numerics::counted(&scratch.words[2 * done..2 * (8 * eights)])
    }
}
