// The arithmetic of a pixel: blended chroma samples, the rounding that makes a component and tells whether it was clipped, and counts.
// A pixel's letters are taken as first, green and third: red, green, blue in RGB and RGBA, and blue, green, red in BGR and BGRA.
// A kernel's sum is kept above its value by a multiple of 8,192, so that it never falls below 0: 32,511 of them for bytes, and 262,144 for
// u16 samples, which may be anything up to 65,535. Where these are below 4,096, 32,766 less the largest letter are enough (`lowered`), and
// there, as for bytes, the code takes them off again and adds up signed numbers.
#![tactic(auto)]

ghost use Rattle.std.specs.Prelude.{◌≡◌, ℕ, ◌+◌, ◌-◌, ◌*◌, ◌/◌, ◌%◌, ◌≤◌, ◌<◌, min, cond, pos, ◌+ℤ◌, ◌-ℤ◌, length};
ghost use Rattle.std.specs.Int.Signed.{lt_z};
ghost use Rattle.yuv_support.specs.Blend.{chroma_red, chroma_width, rounded, tail_of};
ghost use Rattle.yuv_support.specs.Component.{step};
ghost use Rattle.yuv_support.specs.Counts.{together};
ghost use Rattle.numerics.specs.Kernel.{letter_of_sum, green_sum, OneAtMost, letters_of, letters_at, middle, level, Quick, Words, lowered};
ghost use Rattle.numerics.specs.Signed.{min_z, cut, nat_of, signed_letter};
ghost use Rattle.numerics.specs.Row.{at, words_few, words_counted, Next, Reach};

use sample::Sample;
use yuv_support::{Clipped, YuvMode};

// The coefficients of a pixel's letters, with the biases, the rounding and the offset folded into one constant for each letter.
// half is 8, half of sixteen sixteenths: a number of run time, so that the compiler keeps a blended u16 sample in 16 bits, and does not know
// the 0 that is made of it.
// Three functions ask for `half ≡ 8`, several that a sample or M is at most 4,095, and three that a coefficient is at most 32,767. These are
// written out there: a name or a type for such a bound is no plainer, since it says the same number once more elsewhere and has to be
// unfolded in each proof.
// What a kernel is (`Quick`, `Bytes`, `Words`) is asked for, by one name each, and is no ghost field: this type has the kernels of all three,
// and `lower` makes the first from the last.
// A pixel's three samples are parameters of their own: they come from three rows, and `pixel` reads them in an order that the compiler needs.
#[derive(Clone, Copy)]
pub struct Kernel {
    pub offset: u32,
    pub max: u16,
    pub y: u16,
    pub first: u16,
    pub green_first: u16,
    pub green_third: u16,
    pub third: u16,
    pub base_first: u32,
    pub base_green: u32,
    pub base_third: u32,
    pub half: u32,
}

// A letter, and 1 if it was below 0, or above the largest, before it was clamped: numbers and no yes or no, since `joined` adds them up.
#[derive(Clone, Copy)]
pub struct Letter {
    pub value: u16,
    pub below: u16,
    pub above: u16,
}

// The letters of a pixel except alpha, and how many of them were below 0 and above the largest.
#[derive(Clone, Copy)]
pub struct Letters {
    pub first: u16,
    pub green: u16,
    pub third: u16,
    pub below: u16,
    pub above: u16,
}

// ---- samples below 4,096: signed sums. A pixel has two forms, since these sums hold below 4,096 alone, and by the form for any samples
// frames of u16 take 1.2 times as long. The letter is made of an i16: the compiler has one instruction for eight of them where they are
// cut, compared or the lesser is taken.

// A coefficient times a luma sample. Both are said to be below 32,768, so that the compiler multiplies 16 bits by 16.
fn product(k: u16, x: u16) -> u32
    requires { (k ≤ 32767) × (x ≤ 4095) }
    ensures { (result ≡ k * x) × (result ≤ k * 4095) }
{
    (k % 32768) as u32 * (x % 32768) as u32
}

// A coefficient times a chroma sample less its bias.
fn signed_product(k: u16, x: u16, bias: u16) -> i32
    requires { (k ≤ 32767) × (x ≤ 4095) × (bias ≤ 4095) }
    ensures { result ≡ step k x bias }
{
    (k % 32768) as i32 * ((x as i16 - bias as i16) as i32)
}

// What chroma adds to a letter. Both samples are multiplied for each letter, by 0 where the letter takes one, so that the compiler puts
// them side by side once for all three.
fn chroma(kp: u16, kq: u16, p: u16, q: u16, bias: u16) -> i32
    requires { (kp ≤ 32767) × (kq ≤ 32767) × (p ≤ 4095) × (q ≤ 4095) × (bias ≤ 4095) }
    ensures { result ≡ step kp p bias +ℤ step kq q bias }
{
    signed_product(kp, p, bias) + signed_product(kq, q, bias)
}

// Saturating rounding shift right, of a sum that has the 4,096 in it.
fn qrshr(sum: i32, max: u16) -> Letter
    requires { max ≤ 4095 }
    ensures { result ≡ signed_letter max sum }
{
    let q = (sum >> 13).clamp(-32768, 32767) as i16;
    let top = max as i16;
    let least = q.min(top);
    Letter {
        value: least.max(0) as u16,
        below: (least < 0) as u16,
        above: (top < q) as u16,
    }
}

// The three letters, and how many of them were clipped.
fn joined(first: Letter, green: Letter, third: Letter) -> Letters
    requires { OneAtMost first × OneAtMost green × OneAtMost third }
    ensures { result ≡ letters_of first green third }
{
    Letters {
        first: first.value,
        green: green.value,
        third: third.value,
        below: first.below + green.below + third.below,
        above: first.above + green.above + third.above,
    }
}

// Luma, with the biases and the rounding, of all three letters.
fn luma(k: Kernel, y: u16, bias: u16) -> i32
    requires { Quick k × (y ≤ 4095) × (bias ≡ middle k) }
    ensures { result ≡ pos (k.y * y) +ℤ (pos (level k) -ℤ pos (k.offset * 8192)) }
{
    let base = (k.base_first + k.first as u32 * bias as u32) as i32 - (k.offset * 8192) as i32;
    product(k.y, y) as i32 + base
}

// The letters of a pixel from the chroma samples p and q of the first and the third letter and luma y. They are read in this order, so that
// the compiler adds the two products of chroma first; z is 0, a number of run time.
pub fn pixel(k: Kernel, p: u16, q: u16, y: u16) -> Letters
    requires { Quick k × (y ≤ 4095) × (p ≤ 4095) × (q ≤ 4095) }
    ensures { result ≡ letters_at k y p q }
{
    let max = k.max;
    let z = (k.half - 8) as u16;
    let bias = max / 2 + 1;
    let l = luma(k, y, bias);
    let a = qrshr(l + chroma(k.first, z, p, q, bias), max);
    let b = qrshr(l - chroma(k.green_first, k.green_third, p, q, bias), max);
    let c = qrshr(l + chroma(z, k.third, p, q, bias), max);
    joined(a, b, c)
}

// The kernel for u16 samples below 4,096.
pub fn lower(k: Kernel) -> Kernel
    requires { Words k }
    ensures { result ≡ lowered k }
{
    let offset = 32766 - k.max as u32;
    let down = (k.offset - offset) * 8192;
    Kernel {
        offset,
        base_first: k.base_first - down,
        base_green: k.base_green - down,
        base_third: k.base_third - down,
        ..k
    }
}

// ---- any u16 samples

// Saturating rounding shift right, of a sum that is 262,144·8,192 above its value. The quotient is below 524,288. It is cut to 32,767 first,
// which holds every depth: the packed 16-bit lanes of the compiler saturate there.
fn qrshr16(sum: u32, max: u16) -> Letter
    requires { max ≤ 4095 }
    ensures { result ≡ letter_of_sum 262144 max sum }
{
    let q = sum / 8192;
    Letter {
        value: (q.saturating_sub(262144).min(32767) as u16).min(max),
        below: (q < 262144) as u16,
        above: (262144 + (max as u32) < q) as u16,
    }
}

// The first or the third letter: `kc` times its chroma sample c.
fn outer16(k: Kernel, kc: u16, base: u32, y: u16, c: u16) -> Letter
    requires { (k.y + kc ≤ 32767) × (base ≤ 2147487744) × (k.max ≤ 4095) }
    ensures { result ≡ letter_of_sum 262144 k.max (k.y * y + kc * c + base) }
{
    let sum = (k.y as u32) * (y as u32) + (kc as u32) * (c as u32) + base;
    qrshr16(sum, k.max)
}

fn inner16(k: Kernel, y: u16, p: u16, q: u16) -> Letter
    requires { Words k }
    ensures { result ≡ letter_of_sum 262144 k.max (green_sum k y p q) }
{
    let taken = (k.green_first as u32) * (p as u32) + (k.green_third as u32) * (q as u32);
    qrshr16((k.y as u32) * (y as u32) + k.base_green - taken, k.max)
}

// The letters of a pixel of any samples.
pub fn pixel16(k: Kernel, y: u16, p: u16, q: u16) -> Letters
    requires { Words k }
    ensures { result ≡ letters_at k y p q }
{
    let a = outer16(k, k.first, k.base_first, y, p);
    let b = inner16(k, y, p, q);
    let c = outer16(k, k.third, k.base_third, y, q);
    joined(a, b, c)
}

// ---- counts

// Two counts together.
pub fn both(a: Clipped, b: Clipped) -> Clipped
    requires { (a.below + b.below ≤ 4294967295) × (a.above + b.above ≤ 4294967295) }
    ensures { result ≡ together a b }
{
    Clipped {
        below: a.below + b.below,
        above: a.above + b.above,
    }
}

// The counts of words that each hold how many were below 0, and 256 times how many were above the largest.
pub fn counted(words: &[u16]) -> Clipped
    requires { (length words.now ≤ 512) × words_few words.now }
    ensures { result ≡ words_counted words.now }
{
    let mut below: u16 = 0;
    let mut above: u16 = 0;
    for word in words {
        below += word % 256;
        above += word / 256;
    }
    Clipped {
        below: below as u32,
        above: above as u32,
    }
}

// ---- blends

// Chroma of the tail: three quarters of the near sample and one of the far one. Cb's takes no mode: Cr's alone has two meanings.
pub fn tail<S: Sample>(near: S, far: S) -> S
    ensures { S.number result ≡ rounded (12 * S.number near + 4 * S.number far) }
{
    let code = (3 * (near.to_u16() as u32) + (far.to_u16() as u32) + 2) / 4;
    S::from_u16(code as u16)
}

// Cr of the tail: as the source has it, more of the far row; matched, as Cb.
pub fn cr_tail<S: Sample>(near: S, far: S, mode: YuvMode) -> S
    ensures { S.number result ≡ rounded (tail_of mode chroma_red (S.number near) (S.number far)) }
{
    match mode {
        YuvMode::AsSource => tail(far, near),
        YuvMode::Matched => tail(near, far),
    }
}

// The tail's chroma at a place of its rows.
pub fn tail_at<S: Sample>(near: &[S], far: &[S], place: usize) -> S
    requires near { place < length (S.numbers near.now) }
    requires far { place < length (S.numbers far.now) }
    ensures { S.number result ≡ rounded (12 * at (S.numbers near.now) place + 4 * at (S.numbers far.now) place) }
{
    tail(near[place], far[place])
}

pub fn cr_tail_at<S: Sample>(near: &[S], far: &[S], place: usize, mode: YuvMode) -> S
    requires near { place < length (S.numbers near.now) }
    requires far { place < length (S.numbers far.now) }
    ensures { S.number result ≡ rounded (tail_of mode chroma_red (at (S.numbers near.now) place) (at (S.numbers far.now) place)) }
{
    cr_tail(near[place], far[place], mode)
}

// The near and the far sample of a column, in quarters.
pub fn column16(near: u16, far: u16) -> u32
    ensures { result ≡ 3 * near + far }
{
    3 * (near as u32) + (far as u32)
}

// Chroma at a pixel of a pair, from its own column and the pair's other one, in quarters.
pub fn chroma16(own: u32, other: u32, half: u32) -> u16
    requires { (own ≤ 262140) × (other ≤ 262140) × (half ≡ 8) }
    ensures { result ≡ rounded (3 * own + other) }
{
    ((3 * own + other + half) / 16 % 65536) as u16
}

// ---- groups of pairs

// `eights` times eight pairs, from pair `from` on.
#[derive(Clone, Copy)]
pub struct Span {
    pub from: usize,
    pub eights: usize,
}

// The next group where `done` of at least 8 pairs are done: at most 256 pairs. It reaches back over up to 7 of them, so that it has eights
// only; the first group, which has nothing to reach back over, leaves the rest to the second.
pub fn next_span(done: usize, pairs: usize) -> Span
    requires { (done < pairs) × (8 ≤ pairs) × (done < 8 → done ≡ 0) }
    ensures { Next done pairs result.from result.eights }
{
    let left = pairs - done;
    let n = left.min(256);
    if done == 0 {
        return Span {
            from: 0,
            eights: n / 8,
        };
    }
    let eights = n.div_ceil(8);
    Span {
        from: done + n - 8 * eights,
        eights,
    }
}

// How many pairs of a row go through its groups: all, except the tail of an even width where it would need a group to itself.
pub fn grouped(width: usize) -> usize
    requires { (1 ≤ width) × (width ≤ 16384) }
    ensures { (chroma_width width - 1 ≤ result) × (2 * result ≤ width) }
{
    if width % 16 == 2 {
        return width / 2 - 1;
    }
    width / 2
}

// Where the samples of the pairs before pair `end` end.
pub fn reach(end: usize, samples: usize) -> usize
    requires { end ≤ samples }
    ensures { Reach end samples result }
{
    samples.min(end.saturating_add(1))
}
