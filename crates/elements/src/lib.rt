// What a conversion needs of its element: the rows of one width, and what the distance asks of its
// samples. Bytes are in the low bits; u16 samples are in the low or in the high ones.
// `rgb`, `stride`, `image`, `s` and `rows` stay five parameters: the head of `convert` says why.
#![tactic(auto)]

ghost use Rattle.std.specs.Prelude.{◌≡◌, ℕ, ◌≤◌, T, get_or};
ghost use Rattle.yuv_support.specs.declared.Settings.{Settings};
ghost use Rattle.yuv_support.specs.declared.YuvBytesPacking.TheVariants.{LeastSignificantBytes};
ghost use Rattle.yuv_support.specs.Settings.{among, depths, depths8};
ghost use Rattle.yuv_support.specs.Blend.{Frame};
ghost use Rattle.yuv_support.specs.Picture.{band};
ghost use Rattle.yuv_support.specs.Counts.{clipped_in};
ghost use Rattle.yuv_support.specs.Distance.{WithinDepth, AnySamples, WithinIfLow};
ghost use Rattle.yuv_support.proofs.Conversion.{depth_of_8, depth_of_16, bytes_within};
ghost use Rattle.yuv_support.proofs.Packing.{words_within};
ghost use Rattle.kernel.specs.Kernels.{kernel_of};
ghost use Rattle.kernel.specs.Lent.{frame, RowsFit};
ghost use Rattle.kernel.specs.Ordered.{Ready};

use convert::{Convert, Rows};
use images::YuvPlanarImage;
use yuv_support::{Clipped, Settings, YuvBytesPacking};

// A trait of its own above `Convert`: u16 samples choose between the rows of two crates, and each
// of these uses `Convert`.
pub trait Element: Convert {
    // What the distance asks of the samples of a frame.
    ghost asked: { Settings → Frame → Type 0 };

    // Rows of a picture, in settings and of a picture that no question refuses. All else in the
    // destination is kept.
    fn convert_rows_of(
        rgb: &mut [Self],
        stride: u32,
        image: &YuvPlanarImage<'_, Self>,
        s: Settings,
        rows: Rows,
    ) -> Clipped
        requires depth { T (among s.depth Self.known) }
        requires ready { Ready s (frame Self.numbers image.now) (kernel_of s) }
        requires packing { T (among s.depth depths8) → s.packing ≡ LeastSignificantBytes }
        requires fit { RowsFit s (frame Self.numbers image.now)
            stride rows.first rows.count (Self.numbers rgb.old) }
        ensures destination { Self.numbers rgb.new
            ≡ band s (frame Self.numbers image.now)
            stride rows.first rows.count (Self.numbers rgb.old) }
        ensures counts { result
            ≡ clipped_in s (frame Self.numbers image.now) rows.first rows.count };

    // Each depth of the element is one of 8, 10 and 12.
    ghost among_depths: { (depth : ℕ) → T (among depth Self.known) → T (among depth depths) };

    // With what is asked of them the samples lie within the depth.
    ghost within: { (s : Settings) (f : Frame) → T (among s.depth Self.known)
        → ((i : ℕ) → get_or f.y i 0 ≤ Self.most)
        → ((i : ℕ) → get_or f.u i 0 ≤ Self.most)
        → ((i : ℕ) → get_or f.v i 0 ≤ Self.most)
        → asked s f → WithinDepth s f };
}

impl Element for u8 {
    ghost asked = { AnySamples };

    ghost among_depths = { depth_of_8 };

    ghost within = { λ s f depth y u v _. bytes_within s f depth y u v };

    fn convert_rows_of(
        rgb: &mut [u8],
        stride: u32,
        image: &YuvPlanarImage<'_, u8>,
        s: Settings,
        rows: Rows,
    ) -> Clipped {
        convert::convert_rows(rgb, stride, image, s, rows)
    }
}

impl Element for u16 {
    ghost asked = { WithinIfLow };

    ghost among_depths = { depth_of_16 };

    ghost within = { words_within };

    fn convert_rows_of(
        rgb: &mut [u16],
        stride: u32,
        image: &YuvPlanarImage<'_, u16>,
        s: Settings,
        rows: Rows,
    ) -> Clipped {
        match s.packing {
            YuvBytesPacking::LeastSignificantBytes => {
                convert::convert_rows(rgb, stride, image, s, rows)
            }
            YuvBytesPacking::MostSignificantBytes => {
                convert_high16::convert_rows(rgb, stride, image, s, rows)
            }
        }
    }
}
