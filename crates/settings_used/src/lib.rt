// The numbers that a conversion with given codes and weights works with: M, the biases and the five coefficients.
// Nothing is asked of the caller: questions 1, 2 and 13, with the depths of either element width, and a "no" is the answer.
#![tactic(auto)]

ghost use Rattle.std.specs.Prelude.{◌≡◌, IfOk, T};
ghost use Rattle.yuv_support.specs.Settings.{among, depths};
ghost use Rattle.yuv_support.specs.Questions.{verdict, decoded, settings_questions};
ghost use Rattle.yuv_error.specs.Told.{answered};
ghost use Rattle.settings_used.specs.Used.{refusal, numbers_of, settings_used_of};

use yuv_error::{Told, YuvError};
use yuv_support::{Codes, Settings};

// The verdict, then M, bY and bC, then the coefficients times 8192. On a "no" all after the verdict are 0.
#[repr(C)]
#[derive(Clone, Copy, Debug, PartialEq, Eq)]
pub struct SettingsUsed {
    pub number: u64,
    pub expected: u64,
    pub received: u64,
    pub max: u32,
    pub bias_y: u32,
    pub bias_uv: u32,
    pub y: u32,
    pub cr: u32,
    pub cb: u32,
    pub g1: u32,
    pub g2: u32,
}

// The answer to a "no". A function and no `From`: only the `Told` of a refused call becomes such an answer.
fn refused(told: Told) -> SettingsUsed
    ensures { result ≡ refusal told }
{
    SettingsUsed {
        number: told.number,
        expected: told.expected,
        received: told.received,
        max: 0,
        bias_y: 0,
        bias_uv: 0,
        y: 0,
        cr: 0,
        cb: 0,
        g1: 0,
        g2: 0,
    }
}

// The answer to accepted settings.
fn used(s: Settings) -> SettingsUsed
    requires { T (among s.depth depths) }
    ensures { result ≡ numbers_of s }
{
    let max = yuv_support::max_of(s.depth);
    let chroma = yuv_support::get_yuv_range(s.depth, s.range);
    let t = inverse_transform::search_inverse_transform(s);
    SettingsUsed {
        number: 0,
        expected: 0,
        received: 0,
        max: max as u32,
        bias_y: chroma.bias_y as u32,
        bias_uv: chroma.bias_uv as u32,
        y: t.y,
        cr: t.cr,
        cb: t.cb,
        g1: t.g1,
        g2: t.g2,
    }
}

// Questions 1, 2 and 13, and the numbers of what they accept.
fn numbers_of(codes: Codes) -> Result<SettingsUsed, YuvError>
    ensures answer { answered result
        ≡ verdict (settings_questions (among codes.depth depths) codes) }
    ensures numbers { IfOk result (λ numbers. numbers ≡ numbers_of (decoded codes)) }
{
    let s = images::check_settings(codes)?;
    Ok(used(s))
}

// Any codes and weights have an answer. A conversion that is accepted has its settings used.
#[tactic(auto, using(yuv_error::proofs::Refused::refused_number), unfolding(crate::specs::Used::settings_used_of))]
pub fn settings_used(codes: Codes) -> SettingsUsed
    ensures { result ≡ settings_used_of codes }
{
    numbers_of(codes).unwrap_or_else(|e| refused(Told::from(e)))
}
