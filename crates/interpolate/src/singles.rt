// Pixels one by one.
ghost use Rattle.std.specs.Prelude.{◌≡◌, [], ◌⊎◌, ℕ, ◌+◌, ◌*◌, ◌≤◌, ◌<◌, length};
ghost use Rattle.std.proofs.lemmas.List.Edits.{sets};
ghost use Rattle.numerics.specs.Kernel.{below_at, above_at};
ghost use Rattle.numerics.specs.Row.{stored};
ghost use Rattle.blocks.specs.Source.{pixels_fit, pixel_letters, pixels_clipped};

use blocks::block::Block;
use blocks::chroma::Pixels;
use sample::{read, write};
use yuv_support::Clipped;

// The letters of one pixel, from a place on. A row and a place in it, as in `blocks::bytes`, whose line says why.
fn single<S: Block>(row: &mut [S], place: usize, y: u16, p: u16, q: u16, pixels: Pixels) -> Clipped
    requires kernel { S.kernel pixels.k }
    requires letters { (pixels.letters ≡ 3) ⊎ (pixels.letters ≡ 4) }
    requires inside { place + pixels.letters ≤ length (S.numbers row.old) }
    requires samples { (y ≤ S.most) × (p ≤ S.most) × (q ≤ S.most) }
    ensures row { S.numbers row.new ≡ sets (S.numbers row.old) place (stored pixels.k pixels.letters y p q) }
    ensures counts { result ≡ record { below = below_at pixels.k y p q; above = above_at pixels.k y p q } }
{
    let a = S::pixel(pixels.k, y, p, q);
    write(row, place, a.first);
    write(row, place + 1, a.green);
    write(row, place + 2, a.third);
    if pixels.letters == 4 {
        write(row, place + 3, pixels.k.max);
    }
    Clipped {
        below: a.below as u32,
        above: a.above as u32,
    }
}

// The pixels of luma y, with chroma p and q, one by one.
pub fn singles<S: Block>(row: &mut [S], y: &[S], p: &[S], q: &[S], pixels: Pixels) -> Clipped
    requires kernel { S.kernel pixels.k }
    requires fits { pixels_fit S.numbers pixels.letters row.old y.now p.now q.now }
    requires most { length (S.numbers y.now) ≤ 16384 }
    ensures row { S.numbers row.new ≡ pixel_letters S.numbers pixels y.now p.now q.now row.old }
    ensures counts { result ≡ pixels_clipped S.numbers pixels.k y.now p.now q.now }
{
    let mut clipped = Clipped { below: 0, above: 0 };
    // p and q go by the column, which the place needs too: a zip of the three rows would have the column beside it, and be no shorter.
    for (c, luma) in y.iter().enumerate() {
        let place = pixels.letters * c;
        let one = single(row, place, luma.to_u16(), read(p, c), read(q, c), pixels);
        clipped = numerics::both(clipped, one);
    }
    clipped
}
