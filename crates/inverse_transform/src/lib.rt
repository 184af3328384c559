// The five coefficients of a setting: the stored row, or the f32 path where there is none. And question 13.
#![tactic(auto)]

ghost use Rattle.std.specs.Prelude.{◌≡◌, not, ◌<◌, ◌^◌, T};
ghost use Rattle.std.specs.Float.{binary32};
ghost use Rattle.std.specs.Float.Ieee.{of_bits, nan_bits};
ghost use Rattle.yuv_support.specs.Settings.{weights_of, among, depths};
ghost use Rattle.yuv_support.specs.Coefficients.{green_weight, inverse_transform, round_away, integer, to_integers, computed_of, coefficients_of, is_weight, custom_usable, usable_with};

use yuv_support::{
    CbCrInverseTransform, InverseTransformF32, Settings, YuvBias, YuvRange, YuvStandardMatrix,
};

// The weights of a matrix; Custom carries its own. A match, since each case has decimals of its own, which no derive says.
#[tactic(auto, unfolding(crate::proofs::Constants::weights))]
pub fn get_kr_kb(matrix: YuvStandardMatrix) -> YuvBias
    ensures { result ≡ weights_of matrix }
{
    match matrix {
        YuvStandardMatrix::Bt601 => YuvBias {
            kr: 0.299,
            kb: 0.114,
        },
        YuvStandardMatrix::Bt709 => YuvBias {
            kr: 0.2126,
            kb: 0.0722,
        },
        YuvStandardMatrix::Bt2020 => YuvBias {
            kr: 0.2627,
            kb: 0.0593,
        },
        YuvStandardMatrix::Smpte240 => YuvBias {
            kr: 0.212,
            kb: 0.087,
        },
        YuvStandardMatrix::Bt470_6 => YuvBias {
            kr: 0.2220,
            kb: 0.0713,
        },
        YuvStandardMatrix::Fcc => YuvBias { kr: 0.30, kb: 0.11 },
        YuvStandardMatrix::Custom(kr, kb) => YuvBias { kr, kb },
    }
}

// (1 − kr) − kb
#[tactic(auto, unfolding(yuv_support::specs::Coefficients::green_weight), using(crate::proofs::Constants::one_is))]
fn green_weight(k: YuvBias) -> f32
    ensures { result ≡ green_weight k }
{
    1.0f32 - k.kr - k.kb
}

// The f32 coefficients from M, RY, RC and the weights. A division by 0 gives an infinity or a NaN, as in f32.
#[tactic(auto, unfolding(yuv_support::specs::Coefficients::ratio, yuv_support::specs::Coefficients::outer, yuv_support::specs::Coefficients::inner), using(crate::proofs::Constants::one_is, crate::proofs::Constants::two_is))]
pub fn get_inverse_transform(
    range_bgra: u16,
    range_y: u16,
    range_uv: u16,
    k: YuvBias,
) -> InverseTransformF32
    ensures { result ≡ inverse_transform range_bgra range_y range_uv k }
{
    let kr = k.kr;
    let kb = k.kb;
    let kg = green_weight(k);
    let uv = range_bgra as f32 / range_uv as f32;
    InverseTransformF32 {
        y: range_bgra as f32 / range_y as f32,
        cr: (2.0 * (1.0 - kr)) * uv,
        cb: (2.0 * (1.0 - kb)) * uv,
        g1: (2.0 * ((1.0 - kr) * kr / kg)) * uv,
        g2: (2.0 * ((1.0 - kb) * kb / kg)) * uv,
    }
}

// Worked out from the bits, as document 01 has it: the rounding of the f32 whose bits these are, and which is no NaN. Below a half it is 0,
// from 2^31 on 2^31 − 1.
fn round_bits(bits: u32) -> u32
    requires { T (not (nan_bits binary32 bits)) }
    ensures { result ≡ round_away (of_bits binary32 bits) }
{
    if 2147483648 <= bits {
        return 0;
    }
    let exponent = bits / 8388608;
    if exponent < 126 {
        return 0;
    }
    if 158 <= exponent {
        return 2147483647;
    }
    let digits = (8388608 + bits % 8388608) as u64;
    let scaled = digits << (exponent - 126);
    ((scaled * 2 + 16777216) / 33554432) as u32
}

// The nearest whole number, halves away from zero, at most 2^31 − 1; a NaN and what lies below zero give 0.
pub fn round_to_u32(x: f32) -> u32
    ensures { result ≡ round_away x }
{
    if x.is_nan() {
        return 0;
    }
    round_bits(f32::to_bits(x))
}

// Times 8192, rounded.
#[tactic(auto, unfolding(yuv_support::specs::Coefficients::integer), using(crate::proofs::Constants::scale_is))]
fn to_integer(x: f32) -> u32
    ensures { result ≡ integer x }
{
    round_to_u32(x * 8192.0)
}

// The five integers. No `From`: both types are yuv_support's, and so no `impl` may be here.
pub fn to_integers(t: InverseTransformF32) -> CbCrInverseTransform
    ensures { result ≡ to_integers t }
{
    CbCrInverseTransform {
        y: to_integer(t.y),
        cr: to_integer(t.cr),
        cb: to_integer(t.cb),
        g1: to_integer(t.g1),
        g2: to_integer(t.g2),
    }
}

// By the f32 path, whether or not there is a stored row. Depth, range and matrix stay parameters, as in `kernel`, whose head says why.
fn computed(depth: u32, range: YuvRange, matrix: YuvStandardMatrix) -> CbCrInverseTransform
    requires { T (among depth depths) }
    ensures { result ≡ computed_of depth range matrix }
{
    let max = yuv_support::max_of(depth);
    let chroma = yuv_support::get_yuv_range(depth, range);
    let k = get_kr_kb(matrix);
    to_integers(get_inverse_transform(max, chroma.range_y, chroma.range_uv, k))
}

// The coefficients of a setting: the stored row, else the f32 path.
pub fn search_inverse_transform(s: Settings) -> CbCrInverseTransform
    requires { T (among s.depth depths) }
    ensures { result ≡ coefficients_of s }
{
    let mode = s.mode;
    let row = built_coefficients::get_built_inverse_transform(s.depth, s.range, s.matrix, mode);
    row.unwrap_or_else(|| computed(s.depth, s.range, s.matrix))
}

// From 0 to 1, ends included; a NaN is no weight.
#[tactic(auto, using(crate::proofs::Constants::zero_is, crate::proofs::Constants::one_is))]
fn is_weight(k: f32) -> bool
    ensures { result ≡ is_weight k }
{
    0.0 <= k && k <= 1.0
}

// Question 13 for Custom's weights. The sum is judged in u64.
#[tactic(auto, unfolding(yuv_support::specs::Coefficients::custom_usable), using(crate::proofs::Constants::zero_is))]
fn is_custom_usable(k: YuvBias, t: CbCrInverseTransform) -> bool
    ensures { result ≡ custom_usable k t }
{
    is_weight(k.kr)
        && is_weight(k.kb)
        && 0.0 < green_weight(k)
        && t.g1 as u64 + t.g2 as u64 <= 32767
}

// Question 13, of a matrix and its coefficients in some setting. Always "yes" for a matrix by name.
#[tactic(auto, unfolding(yuv_support::specs::Coefficients::usable_with))]
pub fn is_usable(matrix: YuvStandardMatrix, t: CbCrInverseTransform) -> bool
    ensures { result ≡ usable_with matrix t }
{
    match matrix {
        YuvStandardMatrix::Custom(kr, kb) => is_custom_usable(YuvBias { kr, kb }, t),
        YuvStandardMatrix::Bt601
        | YuvStandardMatrix::Bt709
        | YuvStandardMatrix::Bt2020
        | YuvStandardMatrix::Smpte240
        | YuvStandardMatrix::Bt470_6
        | YuvStandardMatrix::Fcc => true,
    }
}
