// The list that is read, number by number. Any bytes are a list: a number that they end before is one
// that neither `found` nor an element has.
use sample::Sample;

// What is left of the list.
#[derive(Drop)]
pub struct List<'a> {
    rest: &'a [u8],
}

impl<'a> List<'a> {
    pub(super) fn new(rest: &'a [u8]) -> List<'a> {
        List { rest }
    }

    pub(super) fn is_empty(&self) -> bool {
        self.rest.is_empty()
    }

    // The next n bytes. Where fewer are left, none, and nothing is left.
    pub(super) fn take(&mut self, n: usize) -> Option<&'a [u8]> {
        match self.rest.split_at_checked(n) {
            Some((first, rest)) => {
                self.rest = rest;
                Some(first)
            }
            None => {
                self.rest = &[];
                None
            }
        }
    }

    // The number of the next n bytes, the high byte first. By a fold: n is 8 or the size of a
    // sample, and `from_be_bytes` is of one size.
    fn number(&mut self, n: usize) -> u64 {
        match self.take(n) {
            Some(bytes) => bytes.iter().fold(0u64, |number, byte| {
                number.wrapping_mul(256).wrapping_add(u64::from(*byte))
            }),
            None => u64::MAX,
        }
    }

    pub(super) fn u64(&mut self) -> u64 {
        self.number(8)
    }

    pub(super) fn size(&mut self) -> usize {
        self.number(8) as usize
    }

    // The low 32 bits of the next number.
    pub(super) fn u32(&mut self) -> u32 {
        (self.number(8) % 4294967296) as u32
    }

    // Whether the next elements are those of a plane.
    pub(super) fn has_plane<S: Sample>(&mut self, plane: &[S]) -> bool {
        let mut same = true;
        for sample in plane {
            let element = self.number(S::SIZE);
            same = same && element == u64::from(sample.to_u16());
        }
        same
    }
}
