// Chroma at the columns of the pairs of a group, of which the last may be the tail. It goes into arrays of a `Scratch`, which have room for
// any group, and the sums of its columns too. `d` is p or q of it, and so is lent apart from the sums. The number of pairs n goes beside the
// rows, which have as many samples as pairs or one more.
ghost use Rattle.std.specs.Prelude.{◌≡◌, ℕ, ◌+◌, ◌*◌, ◌≤◌, ◌<◌, length, set};
ghost use Rattle.numerics.specs.Row.{at, column_of, across_at, Small, Filled, Begun};
ghost use Rattle.blocks.specs.Source.{part_of, tailed_fit, small_rows, blended, tail_put};

use crate::chroma::{ChromaRows, blend_any};
use sample::{Sample, read, write};

// Two samples from a place on. A row and a place in it, as in `bytes`.
pub fn write_pair<S: Sample>(d: &mut [S], place: usize, first: u16, second: u16)
    requires inside { place + 1 < length (S.numbers d.old) }
    requires first_fits { first ≤ S.most }
    requires second_fits { second ≤ S.most }
    ensures { S.numbers d.new ≡ set (set (S.numbers d.old) place first) (place + 1) second }
{
    write(d, place, first);
    write(d, place + 1, second);
}

// The near and the far sample of each of n columns, in quarters: at most 16,380.
fn columns<S: Sample>(sums: &mut [u16; 257], rows: &ChromaRows<'_, S>, n: usize)
    requires few { n ≤ 257 }
    requires near { n ≤ length (S.numbers rows.now.near.now) }
    requires far { n ≤ length (S.numbers rows.now.far.now) }
    requires small { Small n (S.numbers rows.now.near.now) × Small n (S.numbers rows.now.far.now) }
    ensures sums { Filled n (column_of (S.numbers rows.now.near.now) (S.numbers rows.now.far.now)) sums.new }
    ensures fits { (j : ℕ) → j < n → at sums.new j ≤ 4 * S.most }
{
    // By number, as in `bytes::pairs`.
    for (j, sum) in sums[..n].iter_mut().enumerate() {
        *sum = 3 * read(rows.near, j) + read(rows.far, j);
    }
}

// Chroma at the left and at the right pixel of each pair: (3a + b + 8)/16 and (a + 3b + 8)/16 of its columns' sums.
fn across<S: Sample>(d: &mut [S; 512], sums: &[u16; 257], n: usize)
    requires some { (1 ≤ n) × (n ≤ 256) }
    requires sums { (j : ℕ) → j < n + 1 → (at sums.now j ≤ 16380) × (at sums.now j ≤ 4 * S.most) }
    ensures { Begun (across_at sums.now) (S.numbers d.old) (S.numbers d.new) (2 * n) }
{
    // At most 255: so the compiler knows that what is written ends before the sums, which are in the same struct. Without it a row of u16
    // samples takes 1.3 times as long.
    let last = (n - 1) % 256;
    // By index: a turn writes two places. A loop over chunks_exact_mut does not say what it wrote, and by one over the samples frames take
    // 1.6 times as long.
    for j in 0..last + 1 {
        let a = sums[j];
        let b = sums[j + 1];
        let s = a + b + 8;
        let l = (s + 2 * a) / 16;
        let r = (s + 2 * b) / 16;
        write_pair(d, 2 * j, l, r);
    }
}

// Chroma at the columns of n pairs, of samples below 4,096. `sums` is room to work in.
fn blend<S: Sample>(d: &mut [S; 512], sums: &mut [u16; 257], rows: &ChromaRows<'_, S>, n: usize)
    requires some { (1 ≤ n) × (n ≤ 256) }
    requires near { n < length (S.numbers rows.now.near.now) }
    requires far { n < length (S.numbers rows.now.far.now) }
    requires small { Small (n + 1) (S.numbers rows.now.near.now) × Small (n + 1) (S.numbers rows.now.far.now) }
    ensures { blended S.numbers rows.now d.old d.new n }
{
    columns(sums, rows, n + 1);
    across(d, sums, n);
}

// The tail's sample at the columns of the last of n pairs, where it has no sample after its own: only the rows say whether it has.
pub fn put_tail<S: Sample>(d: &mut [S], tail: S, some: usize, n: usize)
    requires { (some ≤ n) × (n ≤ some + 1) × (2 * n ≤ length (S.numbers d.old)) }
    ensures { tail_put S.numbers S.number tail some n d.old d.new }
{
    if some < n {
        let code = tail.to_u16();
        write_pair(d, 2 * some, code, code);
    }
}

// Chroma at the columns of n pairs, of samples below 4,096. The last is the tail where `near` ends with it.
pub fn blend_tailed<S: Sample>(
    d: &mut [S; 512],
    sums: &mut [u16; 257],
    rows: &ChromaRows<'_, S>,
    n: usize,
)
    requires few { (2 ≤ length (S.numbers rows.now.near.now)) × (n ≤ 256) }
    requires fit { tailed_fit S.numbers n rows.now }
    requires small { small_rows S.numbers rows.now }
    ensures { Begun (part_of S.numbers S.number rows.now) (S.numbers d.old) (S.numbers d.new) (2 * n) }
{
    let some = rows.near.len() - 1;
    blend(d, sums, rows, some);
    put_tail(d, rows.tail, some, n);
}
