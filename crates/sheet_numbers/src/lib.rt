// The numbers and lines of a sheet's input: read from a list of bytes, place by place.
// A text and a place in it stay two parameters: the definitions count places from the begin.
#![tactic(auto)]

ghost use Rattle.std.specs.Prelude.{◌≡◌, ◌+◌, ◌^◌, ◌≤◌, ◌<◌, length};
ghost use Rattle.sheet_numbers.specs.Numbers.{byte_at, digits_at, number_at, ending};
ghost use Rattle.sheet_numbers.specs.Read.{number_read, LinesTaken};

// The digits of a number, and the number.
#[derive(Clone, Copy)]
struct Digits {
    count: usize,
    value: u32,
}

// A number and the place after the byte that ends it.
#[derive(Clone, Copy)]
struct Number {
    value: u32,
    next: usize,
}

// The byte at a place, 0 past the end.
fn byte_at(s: &[u8], at: usize) -> u8
    ensures { result ≡ byte_at s.now at }
{
    s.get(at).copied().unwrap_or(0)
}

// The digits from a place on, at most five.
fn read_digits(s: &[u8], at: usize) -> Digits
    requires { at ≤ length s.now }
    ensures count { result.count ≡ digits_at s.now at }
    ensures value { result.value ≡ number_at s.now at }
    ensures most { result.count ≤ 5 }
{
    let mut digits = Digits { count: 0, value: 0 };
    // By place, as the definition has it: five bytes are looked at, and past the end a byte is 0.
    // The count is kept beside the value, of which it is a field: by the place it would be no plainer.
    for place in at..at + 5 {
        let byte = byte_at(s, place);
        if !byte.is_ascii_digit() {
            return digits;
        }
        digits.value = 10 * digits.value + (byte - b'0') as u32;
        digits.count += 1;
    }
    digits
}

// The number at a place, which the byte `end` has to end.
fn read_number(s: &[u8], at: usize, end: u8) -> Option<Number>
    requires { at ≤ length s.now }
    ensures { result ≡ number_read s.now at end }
{
    let digits = read_digits(s, at);
    if digits.count == 0 {
        return None;
    }
    let last = at + digits.count;
    if byte_at(s, last) == end {
        return Some(Number {
            value: digits.value,
            next: last + 1,
        });
    }
    None
}

// What ends number i, in lines of `width` numbers.
fn ending_of(width: usize, i: usize) -> u8
    requires { (0 < width) × (i + 1 < 2 ^ 64) }
    ensures { result ≡ ending width i }
{
    if (i + 1) % width == 0 {
        return b'\n';
    }
    b' '
}

// Lines of numbers: how many numbers they are, how many stand in a line, and the largest that each may be.
#[derive(Clone, Copy)]
pub struct Lines {
    pub count: usize,
    pub width: usize,
    pub limit: u32,
}

// The numbers of well-formed lines; the answer is the place after them.
pub fn read_lines(s: &[u8], at: usize, lines: Lines, numbers: &mut [u32]) -> Option<usize>
    requires place { at ≤ length s.now }
    requires width { 0 < lines.width }
    requires room { lines.count ≤ length numbers.old }
    ensures { LinesTaken s.now at lines.width lines.limit lines.count numbers.old numbers.new
        result }
{
    let mut place = at;
    for (i, slot) in numbers[..lines.count].iter_mut().enumerate() {
        let number = read_number(s, place, ending_of(lines.width, i))?;
        if lines.limit < number.value {
            return None;
        }
        *slot = number.value;
        place = number.next;
    }
    Some(place)
}
