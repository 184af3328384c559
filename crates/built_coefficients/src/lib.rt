// The coefficients of the settings that the source stores rows for, precision 13, by formula: M/RY, 2(1−k)·M/RC and 2(1−k)(k/kg)·M/RC, times
// 8192, each rounded to the nearest whole number. The weights kr, kb and kg = 1 − kr − kb are in ten-thousandths.
// Depth, range, matrix and mode stay parameters, as in `kernel`, whose head says why.
#![tactic(auto)]

ghost use Rattle.std.specs.Prelude.{◌≡◌, ◌-◌, ◌*◌, ◌≤◌, ◌<◌, T};
ghost use Rattle.yuv_support.specs.Settings.{among, depths, weight_r, weight_b};
ghost use Rattle.yuv_support.specs.Coefficients.{is_stored, nearest, rule_of};
ghost use Rattle.built_coefficients.specs.Built.{built_of, NearestRow, SmallWeights, StoredBy, AtMostTwo};

use yuv_support::{CbCrInverseTransform, YuvMode, YuvRange, YuvStandardMatrix};

// kr and kb, in ten-thousandths: the f32 weights of `YuvBias` are not exact, and these are.
#[derive(Clone, Copy)]
struct Weights {
    kr: u64,
    kb: u64,
}

// M, and the range that it is divided by, RY or RC; M is at most twice as large.
#[derive(Clone, Copy)]
struct Scale {
    max: u16,
    range: u16,
    ghost at_most_two: { AtMostTwo max range },
}

// 8192·num/den to the nearest whole number, halves up. The largest den is that of green, 10,000·10,000·65,535, and num is at most four times
// as large: in 64 bits nothing overflows, and the result is at most 32,768.
fn to_nearest(num: u64, den: u64) -> u32
    requires { (0 < den) × (den ≤ 6553500000000) × (num ≤ 4 * den) }
    ensures { result ≡ nearest (8192 * num) den }
{
    ((2 * (8192 * num) + den) / (2 * den)) as u32
}

// M/RY.
fn luma(y: Scale) -> u32
    ensures { result ≡ nearest (8192 * y.max) y.range }
{
    to_nearest(y.max as u64, y.range as u64)
}

// 2(1−k)·M/RC: red by kr, blue by kb.
fn outer(k: u64, uv: Scale) -> u32
    requires { k ≤ 10000 }
    ensures { result ≡ nearest (8192 * (2 * (10000 - k) * uv.max)) (10000 * uv.range) }
{
    to_nearest(2 * (10000 - k) * uv.max as u64, 10000 * uv.range as u64)
}

// 2(1−k)(k/kg)·M/RC: green, what it loses by Cr with kr and by Cb with kb.
fn inner(k: u64, kg: u64, uv: Scale) -> u32
    requires { (k ≤ kg) × (0 < kg) × (kg ≤ 10000) }
    ensures { result ≡ nearest (8192 * (2 * (10000 - k) * k * uv.max)) (10000 * kg * uv.range) }
{
    to_nearest(
        2 * (10000 - k) * k * uv.max as u64,
        10000 * kg * uv.range as u64,
    )
}

// The five coefficients by the weights.
#[tactic(auto, using(crate::proofs::Fits::ranges), unfolding(yuv_support::specs::Coefficients::exact_y, yuv_support::specs::Coefficients::exact_outer, yuv_support::specs::Coefficients::exact_inner))]
fn rule(depth: u32, range: YuvRange, k: Weights) -> CbCrInverseTransform
    requires { T (among depth depths) × SmallWeights k }
    ensures { result ≡ rule_of depth range k.kr k.kb (10000 - k.kr - k.kb) }
{
    let max = yuv_support::max_of(depth);
    let chroma = yuv_support::get_yuv_range(depth, range);
    let kr = k.kr;
    let kb = k.kb;
    let kg = 10000 - kr - kb;
    let y = Scale {
        max,
        range: chroma.range_y,
    };
    let uv = Scale {
        max,
        range: chroma.range_uv,
    };
    CbCrInverseTransform {
        y: luma(y),
        cr: outer(kr, uv),
        cb: outer(kb, uv),
        g1: inner(kr, kg, uv),
        g2: inner(kb, kg, uv),
    }
}

// The weights of a matrix, which each case gives for itself. Custom, which has no stored row, carries its own elsewhere.
#[tactic(auto, unfolding(yuv_support::specs::Settings::weight_r, yuv_support::specs::Settings::weight_b))]
fn own_weights(matrix: YuvStandardMatrix) -> Weights
    ensures { result ≡ record { kr = weight_r matrix; kb = weight_b matrix } }
{
    match matrix {
        YuvStandardMatrix::Bt601 => Weights { kr: 2990, kb: 1140 },
        YuvStandardMatrix::Bt709 => Weights { kr: 2126, kb: 722 },
        YuvStandardMatrix::Bt2020 => Weights { kr: 2627, kb: 593 },
        YuvStandardMatrix::Smpte240 => Weights { kr: 2120, kb: 870 },
        YuvStandardMatrix::Bt470_6 => Weights { kr: 2220, kb: 713 },
        YuvStandardMatrix::Fcc => Weights { kr: 3000, kb: 1100 },
        YuvStandardMatrix::Custom(_, _) => Weights { kr: 0, kb: 0 },
    }
}

// The weights by which the source stores a matrix: those of `Smpte240` are exchanged. Matched, they are the matrix's own.
fn stored_weights(matrix: YuvStandardMatrix, mode: YuvMode) -> Weights
    ensures { StoredBy matrix mode result × SmallWeights result }
{
    let k = own_weights(matrix);
    match matrix {
        YuvStandardMatrix::Smpte240 => match mode {
            YuvMode::AsSource => Weights { kr: k.kb, kb: k.kr },
            YuvMode::Matched => k,
        },
        _ => k,
    }
}

// Whether the source stores a row: five matrices at depth 8, three at depths 10 and 12.
#[tactic(auto, unfolding(yuv_support::specs::Coefficients::is_stored))]
fn is_stored(depth: u32, matrix: YuvStandardMatrix) -> bool
    ensures { result ≡ is_stored depth matrix }
{
    match matrix {
        YuvStandardMatrix::Bt601 | YuvStandardMatrix::Bt709 | YuvStandardMatrix::Bt2020 => {
            yuv_support::is_depth(depth)
        }
        YuvStandardMatrix::Smpte240 | YuvStandardMatrix::Bt470_6 => depth == 8,
        YuvStandardMatrix::Fcc | YuvStandardMatrix::Custom(_, _) => false,
    }
}

// The row that the source stores of a depth, a range, a matrix and a mode, if it stores one.
pub fn get_built_inverse_transform(
    depth: u32,
    range: YuvRange,
    matrix: YuvStandardMatrix,
    mode: YuvMode,
) -> Option<CbCrInverseTransform>
    ensures built { result ≡ built_of depth range matrix mode }
    ensures nearest { NearestRow depth range matrix mode result }
{
    if !is_stored(depth, matrix) {
        return None;
    }
    let k = stored_weights(matrix, mode);
    Some(rule(depth, range, k))
}
