// Large sheets of generated samples.
use crate::named;
use sample::plane::Size;
use std::alloc::Global;
use std::io;
use std::io::Write;

// A sheet whose samples are at most `most`. Its values are the second line, in which the sides stand again.
#[derive(Clone, Copy)]
pub struct Large {
    pub name: &'static str,
    pub values: &'static str,
    pub luma: Size,
    pub chroma: Size,
    pub most: u16,
}

// The second has samples above 4095.
pub const LARGE: [Large; 3] = [
    Large {
        name: "64 by 64, 4:2:2, depth 8",
        values: "8 1 2 0 1 64 64\n",
        luma: Size {
            width: 64,
            height: 64,
        },
        chroma: Size {
            width: 32,
            height: 64,
        },
        most: 255,
    },
    Large {
        name: "64 by 64, 4:2:0, depth 12",
        values: "12 0 1 1 2 64 64\n",
        luma: Size {
            width: 64,
            height: 64,
        },
        chroma: Size {
            width: 32,
            height: 32,
        },
        most: 65535,
    },
    Large {
        name: "63 by 61, 4:2:0, depth 10",
        values: "10 0 3 0 4 63 61\n",
        luma: Size {
            width: 63,
            height: 61,
        },
        chroma: Size {
            width: 32,
            height: 31,
        },
        most: 1023,
    },
];

// The lines of a plane whose samples step by `step` from 17 on, modulo `most` + 1. Each number has five digits.
fn put_plane(sheet: &mut Vec<u8>, size: Size, step: u32, most: u16) -> io::Result<()> {
    let mut next = 17u32;
    for _ in 0..size.height {
        for column in 0..size.width {
            let sample = next % (u32::from(most) + 1);
            let end = if column + 1 == size.width { '\n' } else { ' ' };
            write!(sheet, "{sample:05}{end}")?;
            next = next.wrapping_add(step);
        }
    }
    Ok(())
}

impl Large {
    pub(super) fn sheet(&self, alloc: Global) -> io::Result<Vec<u8>> {
        let mut sheet = named(alloc, self.values)?;
        put_plane(&mut sheet, self.luma, 37, self.most)?;
        put_plane(&mut sheet, self.chroma, 101, self.most)?;
        put_plane(&mut sheet, self.chroma, 73, self.most)?;
        Ok(sheet)
    }
}
