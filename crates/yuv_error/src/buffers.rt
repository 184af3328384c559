// Questions 3 to 12: the sides of a picture, the destination, and one plane. Lengths and products are judged in 64 bits, where none wraps.
ghost use Rattle.std.specs.Prelude.{◌≡◌, ◌≤◌, ◌*◌, ◌+◌, ◌∷◌, [], cond, length, Ok, Err, IfOk};
ghost use Rattle.yuv_support.specs.Questions.{extent, sides, needed, at_least, destination, plane};
ghost use Rattle.yuv_error.specs.Asked.{named, asked, first_question};

use crate::error::{MismatchedSize, YuvError};
use sample::plane::{Plane, Size};

// A buffer as the questions see it: how many elements it has, and how many from the begin of a row to that of the next.
#[derive(Clone, Copy, Debug, PartialEq, Eq)]
pub struct Buffer {
    pub length: u64,
    pub stride: u32,
}

// The three planes of a picture.
#[derive(Clone, Copy, Debug, PartialEq, Eq)]
pub enum Channel {
    Y,
    U,
    V,
}

impl<'a, T: Copy> From<Plane<'a, T>> for Buffer {
    ghost from_gives = { λ plane buffer.
        buffer ≡ record { length = length plane.elements.now; stride = plane.stride } };

    fn from(plane: Plane<'a, T>) -> Buffer {
        Buffer {
            length: plane.elements.len() as u64,
            stride: plane.stride,
        }
    }
}

// One question: its error where it gets a "no". `holds` is a flag: what a comparison gives, turned into a result here.
pub fn ask(holds: bool, error: YuvError) -> Result<(), YuvError>
    ensures { result ≡ cond holds (Ok tt) (Err error) }
{
    if holds { Ok(()) } else { Err(error) }
}

fn sizes(expected: u64, received: u64) -> MismatchedSize
    ensures { result ≡ record { expected = expected; received = received } }
{
    MismatchedSize { expected, received }
}

// Questions 3 and 4.
#[tactic(auto, unfolding(crate::specs::Asked::asked))]
pub fn check_sides(size: Size) -> Result<(), YuvError>
    ensures answer { result ≡ asked (sides size.width size.height) }
    ensures width_least { IfOk result (λ _. 1 ≤ size.width) }
    ensures height_least { IfOk result (λ _. 1 ≤ size.height) }
    ensures width_most { IfOk result (λ _. size.width ≤ 16384) }
    ensures height_most { IfOk result (λ _. size.height ≤ 16384) }
{
    ask(size.width >= 1 && size.height >= 1, YuvError::ZeroBaseSize)?;
    ask(
        size.width <= 16384 && size.height <= 16384,
        YuvError::PointerOverflow,
    )
}

// stride·(height − 1) + width: the elements that `height` rows of `width` elements need.
fn needed_length(stride: u32, size: Size) -> u64
    ensures { result ≡ needed stride size.width size.height }
{
    stride as u64 * size.height.saturating_sub(1) as u64 + size.width as u64
}

// a·b, which fits 64 bits.
pub fn product(a: u32, b: u32) -> u64
    ensures { result ≡ a * b }
{
    a as u64 * b as u64
}

// Question 5 of an output that has to take `expected` elements one after the other, and has `received`.
#[tactic(auto, unfolding(crate::specs::Asked::asked))]
pub fn check_output(received: u64, expected: u64) -> Result<(), YuvError>
    ensures answer { result ≡ asked (at_least 5 expected received ∷ []) }
    ensures fits { IfOk result (λ _. expected ≤ received) }
{
    ask(
        expected <= received,
        YuvError::DestinationSizeMismatch(sizes(expected, received)),
    )
}

// Questions 5 and 6 of a destination, whose size is width·channels and the height: the length, then the stride.
#[tactic(auto, unfolding(crate::specs::Asked::asked))]
pub fn check_rgba_destination(rgb: Buffer, size: Size) -> Result<(), YuvError>
    ensures answer { result
        ≡ asked (destination (extent rgb.length rgb.stride) size.width size.height) }
    ensures fits { IfOk result (λ _. needed rgb.stride size.width size.height ≤ rgb.length) }
    ensures wide { IfOk result (λ _. size.width ≤ rgb.stride) }
{
    let needed = needed_length(rgb.stride, size);
    let short = YuvError::DestinationSizeMismatch(sizes(needed, rgb.length));
    ask(needed <= rgb.length, short)?;
    let wide = sizes(size.width as u64, rgb.stride as u64);
    let narrow = YuvError::MinimumStrideSizeMismatch(wide);
    ask(size.width <= rgb.stride, narrow)
}

impl Channel {
    // The error of a plane whose stride is less than its row. By a match, as `short` is: each plane has a case of its own in
    // `YuvError`, since document 01 gives each a number.
    fn narrow(self, size: MismatchedSize) -> YuvError
        ensures { result ≡ named (first_question self) size }
    {
        match self {
            Channel::Y => YuvError::LumaPlaneMinimumSizeMismatch(size),
            Channel::U => YuvError::UPlaneMinimumSizeMismatch(size),
            Channel::V => YuvError::VPlaneMinimumSizeMismatch(size),
        }
    }

    // The error of a plane that has too few elements.
    fn short(self, size: MismatchedSize) -> YuvError
        ensures { result ≡ named (first_question self + 1) size }
    {
        match self {
            Channel::Y => YuvError::LumaPlaneSizeMismatch(size),
            Channel::U => YuvError::UPlaneSizeMismatch(size),
            Channel::V => YuvError::VPlaneSizeMismatch(size),
        }
    }

    // The two questions of the plane: 7 and 8 of Y, 9 and 10 of U, 11 and 12 of V. The size is the plane's own.
    #[tactic(auto, unfolding(crate::specs::Asked::asked))]
    pub fn check(self, buffer: Buffer, size: Size) -> Result<(), YuvError>
        ensures answer { result
            ≡ asked (plane (first_question self)
            (extent buffer.length buffer.stride) size.width size.height) }
        ensures fits { IfOk result (λ _. needed buffer.stride size.width size.height
            ≤ buffer.length) }
        ensures wide { IfOk result (λ _. size.width ≤ buffer.stride) }
    {
        let area = sizes(
            product(size.width, size.height),
            product(buffer.stride, size.height),
        );
        let least = needed_length(buffer.stride, size);
        ask(size.width <= buffer.stride, self.narrow(area))?;
        ask(
            least <= buffer.length,
            self.short(sizes(least, buffer.length)),
        )
    }
}
