// What a block of pairs is at each width: one contract, whose bodies are in `bytes` and `words`.
ghost use Rattle.std.specs.Prelude.{◌≡◌, ℕ, ◌*◌, ◌≤◌, ◌<◌};
ghost use Rattle.numerics.specs.declared.Kernel.{Kernel};
ghost use Rattle.numerics.specs.Kernel.{letters_at};
ghost use Rattle.blocks.specs.Source.{parts_fit, part_letters, part_clipped};

use crate::chroma::{Pixels, Scratch, Source};
use numerics::{Kernel, Letters};
use sample::Sample;
use yuv_support::Clipped;

// A width of samples.
pub trait Block: Sample {
    // The kernels of this width.
    ghost kernel: { Kernel → Type 0 };

    // The letters of a pixel.
    fn pixel(k: Kernel, y: u16, p: u16, q: u16) -> Letters
        requires kernel { kernel k }
        requires samples { (y ≤ Self.most) × (p ≤ Self.most) × (q ≤ Self.most) }
        ensures letters { result ≡ letters_at k y p q }
        ensures fit { (result.first ≤ Self.most) × (result.green ≤ Self.most) × (result.third ≤ Self.most) };

    // Eight pairs `eights` times, of parts of the rows; the last pair is the tail where the parts end with it. What was clipped in the pairs
    // after the first `done`. `scratch` is room to work in. The head of `interpolate` says why `row`, `source` and `scratch` are no struct.
    fn convert(
        row: &mut [Self],
        source: &Source<'_, Self>,
        scratch: &mut Scratch<Self>,
        eights: usize,
        done: usize,
        pixels: Pixels,
    ) -> Clipped
        requires kernel { kernel pixels.k }
        requires fit { parts_fit Self.numbers pixels.letters eights row.old source.now }
        requires eights { eights ≤ 32 }
        requires left { done < 8 * eights }
        ensures row { Self.numbers row.new ≡ part_letters Self.numbers Self.number pixels source.now row.old }
        ensures counts { result ≡ part_clipped Self.numbers Self.number pixels.k source.now done eights };

    // A kernel's alpha fits a sample, and it has half of sixteen sixteenths.
    ghost max_fits: { (k : Kernel) → kernel k → k.max ≤ Self.most };

    ghost half_is: { (k : Kernel) → kernel k → k.half ≡ 8 };
}
