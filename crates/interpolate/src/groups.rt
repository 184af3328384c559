// Groups of pairs.
ghost use Rattle.std.specs.Prelude.{◌≡◌, List, ℕ, ◌+◌, ◌-◌, ◌*◌, ◌≤◌, ◌<◌};
ghost use Rattle.blocks.specs.Source.{begun_letters, clipped_of, clipped_after, groups_fit};

use blocks::block::Block;
use blocks::chroma::{ChromaRows, Pixels, Scratch, Source};
use numerics::Span;
use yuv_support::Clipped;

// The pairs of a group, and what was clipped in those that were not done yet.
fn group<S: Block>(
    row: &mut [S],
    source: &Source<'_, S>,
    scratch: &mut Scratch<S>,
    done: usize,
    span: Span,
    samples: usize,
    pixels: Pixels,
) -> Clipped
    requires kernel { S.kernel pixels.k }
    requires fits { groups_fit S.numbers pixels.letters row.old source.now (span.from + 8 * span.eights) samples }
    requires in_span { (span.from ≤ done) × (done < span.from + 8 * span.eights) × (span.eights ≤ 32) }
    ensures row { (row₀ : List ℕ) → begun_letters S.numbers S.number pixels samples source.now row₀ row.old done → begun_letters S.numbers S.number pixels samples source.now row₀ row.new (span.from + 8 * span.eights) }
    ensures counts { result ≡ clipped_after S.numbers S.number pixels.k samples source.now done (2 * (span.from + 8 * span.eights - done)) }
{
    let from = span.from;
    let end = from + 8 * span.eights;
    let to = numerics::reach(end, samples);
    let c = 2 * from;
    let e = 2 * end;
    let a = pixels.letters * c;
    let b = pixels.letters * e;
    let first = &source.first;
    let third = &source.third;
    let part = Source {
        y: &source.y[c..e],
        first: ChromaRows {
            near: &first.near[from..to],
            far: &first.far[from..to],
            tail: first.tail,
        },
        third: ChromaRows {
            near: &third.near[from..to],
            far: &third.far[from..to],
            tail: third.tail,
        },
    };
    let before = done - from;
    S::convert(&mut row[a..b], &part, scratch, span.eights, before, pixels)
}

// All pairs, at least 8, of rows of so many samples of chroma; the last is the tail where it has no sample after its own.
pub fn groups<S: Block>(
    row: &mut [S],
    source: &Source<'_, S>,
    scratch: &mut Scratch<S>,
    pairs: usize,
    samples: usize,
    pixels: Pixels,
) -> Clipped
    requires kernel { S.kernel pixels.k }
    requires fits { groups_fit S.numbers pixels.letters row.old source.now pairs samples }
    requires least { 8 ≤ pairs }
    requires most { pairs ≤ 8192 }
    ensures row { begun_letters S.numbers S.number pixels samples source.now (S.numbers row.old) row.new pairs }
    ensures counts { result ≡ clipped_of S.numbers S.number pixels.k samples source.now (2 * pairs) }
{
    let mut clipped = Clipped { below: 0, above: 0 };
    let mut done: usize = 0;
    // No range: where a group begins comes from the one before it.
    while done < pairs {
        let span = numerics::next_span(done, pairs);
        let x = group(row, source, scratch, done, span, samples, pixels);
        clipped = numerics::both(clipped, x);
        done = span.from + 8 * span.eights;
    }
    clipped
}
