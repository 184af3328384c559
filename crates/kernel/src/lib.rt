// The kernel that a conversion works with, from the settings' coefficients. Depth and range, with the order or the matrix, stay parameters,
// here, in `inverse_transform`, in `built_coefficients` and in `yuv_support`: they are those of the definitions, and are no whole `Settings`.
#![tactic(auto)]

ghost use Rattle.std.specs.Prelude.{◌≡◌, T};
ghost use Rattle.yuv_support.specs.Settings.{among, depths};
ghost use Rattle.yuv_support.specs.Coefficients.{usable};
ghost use Rattle.inverse_transform.specs.Narrow.{Narrow};
ghost use Rattle.kernel.specs.Kernels.{red_first, offset_of, lettered, arranged, kernel_of};

use numerics::Kernel;
use yuv_support::{CbCrInverseTransform, Settings, YuvRange, YuvSourceChannels};

// Whether red is the first letter.
#[tactic(auto, unfolding(crate::specs::Kernels::red_first))]
pub fn is_red_first(order: YuvSourceChannels) -> bool
    ensures { result ≡ red_first order }
{
    match order {
        YuvSourceChannels::Rgb | YuvSourceChannels::Rgba => true,
        YuvSourceChannels::Bgra | YuvSourceChannels::Bgr => false,
    }
}

// How far a sum is kept above its value, over 8,192.
#[tactic(auto, unfolding(crate::specs::Kernels::offset_of))]
fn offset_of(depth: u32) -> u32
    ensures { result ≡ offset_of depth }
{
    if depth == 8 { 32511 } else { 262144 }
}

// The kernel whose first letter has the coefficients cr and g1, and whose third has cb and g2.
#[tactic(auto, using(crate::proofs::Room::sums), unfolding(crate::specs::Kernels::offset_of))]
fn lettered_kernel(depth: u32, range: YuvRange, t: CbCrInverseTransform) -> Kernel
    requires known_depth { T (among depth depths) }
    requires narrow { Narrow t }
    ensures { result ≡ lettered depth range t.y t.cr t.g1 t.g2 t.cb }
{
    let chroma = yuv_support::get_yuv_range(depth, range);
    let by = chroma.bias_y as u32;
    let bc = chroma.bias_uv as u32;
    let offset = offset_of(depth);
    let zero = offset * 8192 + 4096;
    Kernel {
        offset,
        max: yuv_support::max_of(depth),
        y: t.y as u16,
        first: t.cr as u16,
        green_first: t.g1 as u16,
        green_third: t.g2 as u16,
        third: t.cb as u16,
        base_first: zero - (t.y * by + t.cr * bc),
        base_green: zero + (t.g1 + t.g2) * bc - t.y * by,
        base_third: zero - (t.y * by + t.cb * bc),
        half: 8,
    }
}

// The coefficients with those of red and of blue exchanged.
fn exchanged(t: CbCrInverseTransform) -> CbCrInverseTransform
    ensures { result ≡ record { y = t.y; cr = t.cb; cb = t.cr; g1 = t.g2; g2 = t.g1 } }
{
    CbCrInverseTransform {
        cr: t.cb,
        cb: t.cr,
        g1: t.g2,
        g2: t.g1,
        ..t
    }
}

// The kernel of coefficients t at a depth and a range, in the order's letters: red or blue first.
pub fn kernel_of(
    depth: u32,
    range: YuvRange,
    order: YuvSourceChannels,
    t: CbCrInverseTransform,
) -> Kernel
    requires known_depth { T (among depth depths) }
    requires narrow { Narrow t }
    ensures { result ≡ arranged depth range (red_first order) t }
{
    if is_red_first(order) {
        lettered_kernel(depth, range, t)
    } else {
        lettered_kernel(depth, range, exchanged(t))
    }
}

// The kernel of settings that no question refuses.
pub fn settings_kernel(s: Settings) -> Kernel
    requires { T (among s.depth depths) × T (usable s) }
    ensures { result ≡ kernel_of s }
{
    let t = inverse_transform::search_inverse_transform(s);
    kernel_of(s.depth, s.range, s.order, t)
}
