// Whole rows.
ghost use Rattle.std.specs.Prelude.{◌≡◌, ◌-◌, ◌≤◌, ◌<◌};
ghost use Rattle.yuv_support.specs.Blend.{chroma_width};
ghost use Rattle.blocks.specs.Source.{row_letters, row_clipped, row_fits};

use crate::groups::groups;
use crate::singles::singles;
use blocks::block::Block;
use blocks::chroma::{Pixels, Scratch, Source, blend_any};
use yuv_support::Clipped;

// A row of fewer than 8 pairs before its tail. The arrays begin as the tail's chroma, and the pairs' is put over it.
// Arrays, here and below, since the library uses no heap.
// It and `interpolate_alone` are put into their callers whole: a narrow row is over before the calls have paid.
#[inline(always)]
fn narrow<S: Block>(row: &mut [S], source: &Source<'_, S>, width: usize, pixels: Pixels) -> Clipped
    requires kernel { S.kernel pixels.k }
    requires fits { row_fits S.numbers pixels.letters row.old source.now width }
    requires few { chroma_width width ≤ 8 }
    ensures row { S.numbers row.new ≡ row_letters S.numbers S.number pixels width source.now row.old }
    ensures counts { result ≡ row_clipped S.numbers S.number pixels.k width source.now }
{
    let pairs = width.div_ceil(2) - 1;
    let half = pixels.k.half;
    let first = &source.first;
    let third = &source.third;
    let mut p = [first.tail; 16];
    let mut q = [third.tail; 16];
    blend_any(&mut p, first, pairs, half);
    blend_any(&mut q, third, pairs, half);
    singles(row, &source.y[..width], &p, &q, pixels)
}

// A whole row of three or four letters to the pixel.
pub fn interpolate<S: Block>(
    row: &mut [S],
    source: &Source<'_, S>,
    scratch: &mut Scratch<S>,
    width: usize,
    pixels: Pixels,
) -> Clipped
    requires kernel { S.kernel pixels.k }
    requires fits { row_fits S.numbers pixels.letters row.old source.now width }
    ensures row { S.numbers row.new ≡ row_letters S.numbers S.number pixels width source.now row.old }
    ensures counts { result ≡ row_clipped S.numbers S.number pixels.k width source.now }
{
    let samples = width.div_ceil(2);
    if samples <= 8 {
        return narrow(row, source, width, pixels);
    }
    let all = numerics::grouped(width);
    let from = 2 * all;
    let a = pixels.letters * from;
    let b = pixels.letters * width;
    let p = [source.first.tail; 2];
    let q = [source.third.tail; 2];
    let before = groups(row, source, scratch, all, samples, pixels);
    let after = singles(&mut row[a..b], &source.y[from..width], &p, &q, pixels);
    numerics::both(before, after)
}

// The same with its own room to work in; a narrow row needs none.
#[inline(always)]
pub fn interpolate_alone<S: Block>(
    row: &mut [S],
    source: &Source<'_, S>,
    width: usize,
    pixels: Pixels,
) -> Clipped
    requires kernel { S.kernel pixels.k }
    requires fits { row_fits S.numbers pixels.letters row.old source.now width }
    ensures row { S.numbers row.new ≡ row_letters S.numbers S.number pixels width source.now row.old }
    ensures counts { result ≡ row_clipped S.numbers S.number pixels.k width source.now }
{
    if width.div_ceil(2) <= 8 {
        return narrow(row, source, width, pixels);
    }
    let mut scratch = Scratch::new();
    interpolate(row, source, &mut scratch, width, pixels)
}
