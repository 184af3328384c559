// Short texts in fixed memory: bytes and decimal numbers, one behind the other. The library uses no heap, so a text is the kit's `ArrayVec`
// of bytes; its room is asked for, so nothing here can fail.
#![tactic(auto)]

ghost use Rattle.std.specs.Prelude.{◌≡◌, ◌++◌, ◌+◌, ◌≤◌, length};
ghost use Rattle.sheet_writing.specs.Text.{decimal_text};

use arrayvec::ArrayVec;

pub mod lent;

// Bytes behind a text.
pub fn push_bytes<const N: usize>(text: &mut ArrayVec<u8, N>, more: &[u8])
    requires { length text.old.items + length more.now ≤ N }
    ensures text { text.new.items ≡ text.old.items ++ more.now }
    ensures count { length text.new.items ≡ length text.old.items + length more.now }
{
    text.try_extend_from_slice(more).unwrap();
}

// A decimal number of at most five digits, without leading zeros, behind a text.
pub fn push_number<const N: usize>(text: &mut ArrayVec<u8, N>, n: u32)
    requires { length text.old.items + 5 ≤ N }
    ensures text { text.new.items ≡ text.old.items ++ decimal_text n }
    ensures most { length text.new.items ≤ length text.old.items + 5 }
{
    push_bytes(text, decimal(n).as_slice());
}

// The decimal digits of a number, from that of 10,000 on, without leading zeros. By hand: `write!` answers a `fmt::Result`, and a text whose
// room is asked for cannot fail.
fn decimal(n: u32) -> ArrayVec<u8, 5>
    ensures { result.items ≡ decimal_text n }
{
    let mut digits: ArrayVec<u8, 5> = ArrayVec::new();
    for power in [10000, 1000, 100, 10] {
        if power <= n {
            digits.push(b'0' + (n / power % 10) as u8);
        }
    }
    digits.push(b'0' + (n % 10) as u8);
    digits
}
