// How the buffers of a call are filled, and the sum over its destination.
use sample::Sample;

// The sequence of numbers below 2^31 that fills the buffers: Y, U, V, then the destination.
#[derive(Clone, Copy)]
pub struct Sequence {
    pub last: u64,
}

impl Sequence {
    fn next(&mut self) -> u64 {
        self.last = (self.last % 2147483648 * 1103515245 + 12345) % 2147483648;
        self.last
    }

    // Fills a buffer with the samples that follow.
    pub(super) fn fill<S: Sample>(&mut self, buffer: &mut [S], levels: Levels) {
        for sample in buffer.iter_mut() {
            *sample = narrow(levels.level(self.next()));
        }
    }
}

// The samples that a buffer is filled with.
#[derive(Clone, Copy)]
pub enum Levels {
    // From 0 to the largest.
    UpTo(u16),
    // 0 and the largest alone.
    Ends(u16),
}

impl Levels {
    // All numbers of an element.
    pub const ALL: Levels = Levels::UpTo(65535);

    fn level(self, number: u64) -> u64 {
        match self {
            Levels::UpTo(top) => number / 32768 % (u64::from(top) + 1),
            Levels::Ends(top) => number / 32768 % (u64::from(top) + 1) % 2 * u64::from(top),
        }
    }
}

// The sample that has the low bytes of a number.
fn narrow<S: Sample>(number: u64) -> S {
    S::from_bytes(&number.to_le_bytes(), 0)
}

// A polynomial of the elements modulo the largest prime below 2^32, so that a change of one element changes it.
pub(super) fn sum<S: Sample>(buffer: &[S]) -> u64 {
    buffer.iter().fold(0u64, |sum, sample| {
        (sum % 4294967291 * 2147483629 + u64::from(sample.to_u16()) + 1) % 4294967291
    })
}
