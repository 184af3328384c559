// The table of a small picture written into a lent output, line by line. The picture's rows and letters may lie where they will: `Places`
// says where. Each function that writes answers the place after what it wrote.
ghost use Rattle.std.specs.Prelude.{◌≡◌, ◌++◌, ◌+◌, ◌≤◌, ◌<◌};
ghost use Rattle.sheet_writing.specs.Text.{Wrote};
ghost use Rattle.sheet_table.specs.Table.{heading, pixel_text, clipped_text};
ghost use Rattle.sheet_table.specs.Placed.{shown_pixel, shown_row, shown_rows, Small, places_of};

use crate::{Pixel, red_place};
use sample::Sample;
use sheet_writing::lent::{put_bytes, put_number};
use yuv_support::{Clipped, YuvSourceChannels};

// Where the components of a picture's pixels are in its buffer.
#[derive(Clone, Copy)]
pub struct Places {
    pub width: u32,
    pub height: u32,
    pub stride: usize,
    pub channels: usize,
    pub red: usize,
}

// The places of a picture whose rows follow each other closely.
#[tactic(auto, using(crate::proofs::Room::row_room))]
pub fn places_of(order: YuvSourceChannels, width: u32, height: u32) -> Places
    requires { width ≤ 64 }
    ensures { result ≡ places_of order width height }
{
    let channels = order.get_channels_count();
    Places {
        width,
        height,
        stride: width as usize * channels,
        channels,
        red: red_place(order),
    }
}

fn put_line(out: &mut [u8; 131072], at: usize, pixel: Pixel) -> usize
    requires { at + 30 ≤ 131072 }
    ensures { Wrote out.old at
        (pixel_text pixel.row pixel.column pixel.red pixel.green pixel.blue) out.new result }
{
    let after_row = put_number(out, at, pixel.row, b' ');
    let after_column = put_number(out, after_row, pixel.column, b' ');
    let after_red = put_number(out, after_column, pixel.red as u32, b' ');
    let after_green = put_number(out, after_red, pixel.green as u32, b' ');
    put_number(out, after_green, pixel.blue as u32, b'\n')
}

// The line of a pixel of a picture.
#[tactic(auto, using(crate::proofs::Placed::pixel_room))]
fn put_pixel<S: Sample>(
    out: &mut [u8; 131072],
    at: usize,
    rgb: &[S; 16384],
    p: Places,
    row: u32,
    column: u32,
) -> usize
    requires room { at + 30 ≤ 131072 }
    requires small { Small p }
    requires row { row < p.height }
    requires column { column < p.width }
    ensures { Wrote out.old at (shown_pixel (S.numbers rgb.now) p row column) out.new result }
{
    let begin = p.stride * row as usize + p.channels * column as usize;
    let pixel = Pixel {
        row,
        column,
        red: sample::read(rgb, begin + p.red),
        green: sample::read(rgb, begin + 1),
        blue: sample::read(rgb, begin + (2 - p.red)),
    };
    put_line(out, at, pixel)
}

// The lines of a row.
fn put_row<S: Sample>(
    out: &mut [u8; 131072],
    at: usize,
    rgb: &[S; 16384],
    p: Places,
    row: u32,
) -> usize
    requires room { at + 1920 ≤ 131072 }
    requires small { Small p }
    requires row { row < p.height }
    ensures { Wrote out.old at (shown_row (S.numbers rgb.now) p row p.width) out.new result }
{
    let mut place = at;
    for column in 0..p.width {
        place = put_pixel(out, place, rgb, p, row, column);
    }
    place
}

// The lines of all rows.
fn put_rows<S: Sample>(out: &mut [u8; 131072], at: usize, rgb: &[S; 16384], p: Places) -> usize
    requires room { at + 122880 ≤ 131072 }
    requires small { Small p }
    ensures { Wrote out.old at (shown_rows (S.numbers rgb.now) p p.height) out.new result }
{
    let mut place = at;
    for row in 0..p.height {
        place = put_row(out, place, rgb, p, row);
    }
    place
}

// The heading and the lines of all rows, at the begin of the output.
pub fn put_table<S: Sample>(out: &mut [u8; 131072], rgb: &[S; 16384], p: Places) -> usize
    requires { Small p }
    ensures { Wrote out.old 0 (heading ++ shown_rows (S.numbers rgb.now) p p.height)
        out.new result }
{
    let at = put_bytes(out, 0, b"row column r g b\n");
    put_rows(out, at, rgb, p)
}

// The last line, of what was clipped.
pub fn put_clipped(out: &mut [u8; 131072], at: usize, c: Clipped) -> usize
    requires { at + 20 ≤ 131072 }
    ensures { Wrote out.old at (clipped_text c) out.new result }
{
    let after_word = put_bytes(out, at, b"clipped ");
    let after_below = put_number(out, after_word, c.below, b' ');
    put_number(out, after_below, c.above, b'\n')
}
