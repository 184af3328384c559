// Texts written into a lent output: bytes and decimal numbers. Each function writes from place `at` on, keeps all else, and answers the place
// after what it wrote.
ghost use Rattle.std.specs.Prelude.{[], ◌∷◌, ◌+◌, ◌≤◌, ◌<◌, length};
ghost use Rattle.sheet_writing.specs.Text.{leading_digit, number_text, Wrote};

fn put_byte(out: &mut [u8; 131072], at: usize, byte: u8) -> usize
    requires { at < 131072 }
    ensures { Wrote out.old at (byte ∷ []) out.new result }
{
    out[at] = byte;
    at + 1
}

// Bytes.
pub fn put_bytes(out: &mut [u8; 131072], at: usize, text: &[u8]) -> usize
    requires { at + length text.now ≤ 131072 }
    ensures { Wrote out.old at text.now out.new result }
{
    let next = at + text.len();
    out[at..next].copy_from_slice(text);
    next
}

// A digit that is no leading zero.
fn put_leading_digit(out: &mut [u8; 131072], at: usize, power: u32, n: u32) -> usize
    requires place { at < 131072 }
    requires power { 0 < power }
    ensures { Wrote out.old at (leading_digit power n) out.new result }
{
    if n < power {
        return at;
    }
    put_byte(out, at, b'0' + (n / power % 10) as u8)
}

// A decimal number of at most five digits, and the byte after it. Each digit is written where it belongs: by a text of its own (`decimal`) it
// would be copied.
pub fn put_number(out: &mut [u8; 131072], at: usize, n: u32, byte: u8) -> usize
    requires { at + 6 ≤ 131072 }
    ensures { Wrote out.old at (number_text n byte) out.new result }
{
    let a = put_leading_digit(out, at, 10000, n);
    let b = put_leading_digit(out, a, 1000, n);
    let c = put_leading_digit(out, b, 100, n);
    let d = put_leading_digit(out, c, 10, n);
    let e = put_byte(out, d, b'0' + (n % 10) as u8);
    put_byte(out, e, byte)
}
