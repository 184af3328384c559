// A call of the list, and its answer.
use crate::samples::{Levels, Sequence};
use settings_used::settings_used;
use std::num::f32_from_bits_with_nan;
use yuv_error::Report;
use yuv_support::{Codes, Geometry};

// The numbers of the list that are still to be read. Any bytes are a list: a byte up to 32 ends a number, of each byte before it the low
// four bits are a digit, and a number that is missing is 0.
#[derive(Drop)]
pub struct Columns<'a> {
    rest: &'a [u8],
}

impl<'a> Columns<'a> {
    pub(super) fn new(list: &'a [u8]) -> Columns<'a> {
        Columns { rest: list }
    }

    pub(super) fn is_empty(&self) -> bool {
        self.rest.is_empty()
    }

    // The next number. Of more than 19 digits the last 19 count.
    fn next(&mut self) -> u64 {
        let mut parts = self.rest.splitn(2, |byte| *byte <= 32);
        let column = parts.next().unwrap_or(&[]);
        self.rest = parts.next().unwrap_or(&[]);
        column.iter().fold(0u64, |number, byte| {
            number % 1000000000000000000 * 10 + u64::from(*byte % 16)
        })
    }

    // The low 32 bits of the next number.
    fn narrow(&mut self) -> u32 {
        narrow(self.next())
    }

    // The weight with the next bits. The list has none from 0x7f800000 on, where the infinite ones and NaN begin.
    fn weight(&mut self) -> f32 {
        let bits = self.next();
        if bits < 0x7f80_0000 {
            return f32_from_bits_with_nan(bits as u32);
        }
        0.0
    }

    // The length of a buffer. The list has none above 1024.
    fn length(&mut self) -> usize {
        self.next().min(1024) as usize
    }

    // The codes after the depth.
    fn codes(&mut self, depth: u64) -> Codes {
        Codes {
            depth: narrow(depth),
            sampling: self.narrow(),
            order: self.narrow(),
            range: self.narrow(),
            matrix: self.narrow(),
            packing: self.narrow(),
            mode: self.narrow(),
            kr: self.weight(),
            kb: self.weight(),
        }
    }

    fn levels(&mut self) -> Levels {
        let top = (self.next() % 65536) as u16;
        match self.next() {
            0 => Levels::UpTo(top),
            _ => Levels::Ends(top),
        }
    }

    fn report(&mut self) -> Report {
        Report {
            number: self.next(),
            expected: self.next(),
            received: self.next(),
            below: self.next(),
            above: self.next(),
        }
    }

    fn settings(&mut self) -> [u64; 8] {
        let mut settings = [0u64; 8];
        for number in &mut settings {
            *number = self.next();
        }
        settings
    }
}

// The low 32 bits of a number.
pub(super) fn narrow(number: u64) -> u32 {
    (number % 4294967296) as u32
}

// How many elements the three planes have, whose strides are in C's record. As usize, since vectors of so many are made: the `Lengths` of
// `images` and a `Buffer` have u64.
#[derive(Clone, Copy)]
pub struct Lengths {
    pub y: usize,
    pub u: usize,
    pub v: usize,
}

// The destination. Its length is a usize, as in `Lengths`.
#[derive(Clone, Copy)]
pub struct Destination {
    pub stride: u32,
    pub length: usize,
}

// What is converted, how the buffers are filled before, and the answer: the report, the sum over the destination, and the settings used.
// The depth and the height of the list are here too, since `codes` and `image` have their low 32 bits.
#[derive(Clone, Copy)]
pub struct Call {
    pub depth: u64,
    pub height: u64,
    pub codes: Codes,
    pub image: Geometry,
    pub lengths: Lengths,
    pub rgb: Destination,
    pub seed: Sequence,
    pub levels: Levels,
    pub report: Report,
    pub sum: u64,
    pub settings: [u64; 8],
}

impl Call {
    // The next call of the list.
    pub(super) fn read(columns: &mut Columns<'_>) -> Call {
        let depth = columns.next();
        let codes = columns.codes(depth);
        let width = columns.narrow();
        let height = columns.next();
        let image = Geometry {
            width,
            height: narrow(height),
            y_stride: columns.narrow(),
            u_stride: columns.narrow(),
            v_stride: columns.narrow(),
        };
        let stride = columns.narrow();
        let lengths = Lengths {
            y: columns.length(),
            u: columns.length(),
            v: columns.length(),
        };
        let length = columns.length();
        Call {
            depth,
            height,
            codes,
            image,
            lengths,
            rgb: Destination { stride, length },
            seed: Sequence {
                last: columns.next(),
            },
            levels: columns.levels(),
            report: columns.report(),
            sum: columns.next(),
            settings: columns.settings(),
        }
    }

    // Whether the settings used are those of the list.
    pub(super) fn has_settings(&self) -> bool {
        let s = settings_used(self.codes);
        let used = [s.max, s.bias_y, s.bias_uv, s.y, s.cr, s.cb, s.g1, s.g2];
        s.number == 0 && used.map(u64::from) == self.settings
    }

    // The limit of its bands: 2 to 6.
    pub(super) fn limit(&self) -> u32 {
        (self.seed.last % 5 + 2) as u32
    }
}
