// The table of a small picture: a heading, a line for each pixel, read from the picture's buffer, and a last line of what was clipped.
// Here it is made as a `Page`; the sheet itself is written into its lent output, by the module `lent`.
// The buffer is an array, since the library uses no heap: of 64 by 64 pixels of four letters, of which a picture has the first ones.
// The buffer and the shape stay two parameters: each clause names the order, the width and the samples apart. That a row is below the height,
// and how much room a text needs, is asked where it is used: each is one number.
#![tactic(auto)]

ghost use Rattle.std.specs.Prelude.{◌≡◌, ◌++◌, ◌+◌, ◌*◌, ◌≤◌, ◌<◌, length};
ghost use Rattle.yuv_support.specs.Component.{red, green, blue};
ghost use Rattle.yuv_support.specs.Picture.{channels_of, place_in};
ghost use Rattle.sheet_writing.specs.Text.{number_text};
ghost use Rattle.sheet_table.specs.Table.{heading, pixel_text, clipped_text};
ghost use Rattle.sheet_table.specs.Shown.{stride_of, element_at, shown_pixel, shown_row, shown_rows};

use crate::shape::Shape;
use arrayvec::ArrayVec;
use sample::Sample;
use sheet_writing::{push_bytes, push_number};
use yuv_support::{Clipped, YuvSourceChannels};

pub mod lent;
pub mod shape;

// The bytes of a page: no sheet takes more.
pub const PAGE: usize = 131072;

// The output of a sheet.
pub type Page = ArrayVec<u8, PAGE>;

// A pixel with its place.
#[derive(Clone, Copy)]
struct Pixel {
    row: u32,
    column: u32,
    red: u16,
    green: u16,
    blue: u16,
}

// Where red stands among a pixel's letters. By a match: two orders share each place, which no derive says.
#[tactic(auto, unfolding(yuv_support::specs::Picture::place_in))]
fn red_place(order: YuvSourceChannels) -> usize
    ensures red { result ≡ place_in order red }
    ensures green { place_in order green ≡ 1 }
    ensures blue { result + place_in order blue ≡ 2 }
{
    match order {
        YuvSourceChannels::Rgb | YuvSourceChannels::Rgba => 0,
        YuvSourceChannels::Bgra | YuvSourceChannels::Bgr => 2,
    }
}

// The pixel at a row and a column.
fn pixel_at<S: Sample>(rgb: &[S; 16384], shape: Shape, row: u32, column: u32) -> Pixel
    requires row { row < shape.height }
    requires column { column < shape.width }
    ensures row { result.row ≡ row }
    ensures column { result.column ≡ column }
    ensures red { result.red
        ≡ element_at shape.order shape.width (S.numbers rgb.now) red row column }
    ensures green { result.green
        ≡ element_at shape.order shape.width (S.numbers rgb.now) green row column }
    ensures blue { result.blue
        ≡ element_at shape.order shape.width (S.numbers rgb.now) blue row column }
{
    let begin = shape.begin(row, column);
    let red = red_place(shape.order);
    Pixel {
        row,
        column,
        red: sample::read(rgb, begin + red),
        green: sample::read(rgb, begin + 1),
        blue: sample::read(rgb, begin + (2 - red)),
    }
}

// A number and the byte after it.
#[tactic(auto, using(sheet_writing::proofs::Write::number_text_length), unfolding(sheet_writing::specs::Text::number_text))]
fn push_field(out: &mut Page, n: u32, byte: u8)
    requires { length out.old.items + 6 ≤ 131072 }
    ensures text { out.new.items ≡ out.old.items ++ number_text n byte }
    ensures most { length out.new.items ≤ length out.old.items + 6 }
{
    push_number(out, n);
    out.push(byte);
}

// The line of a pixel.
fn push_pixel(out: &mut Page, pixel: Pixel)
    requires { length out.old.items + 30 ≤ 131072 }
    ensures text { out.new.items
        ≡ out.old.items ++ pixel_text pixel.row pixel.column pixel.red pixel.green pixel.blue }
    ensures most { length out.new.items ≤ length out.old.items + 30 }
{
    push_field(out, pixel.row, b' ');
    push_field(out, pixel.column, b' ');
    push_field(out, pixel.red as u32, b' ');
    push_field(out, pixel.green as u32, b' ');
    push_field(out, pixel.blue as u32, b'\n');
}

// The lines of a row.
fn push_row<S: Sample>(out: &mut Page, rgb: &[S; 16384], shape: Shape, row: u32)
    requires room { length out.old.items + 1920 ≤ 131072 }
    requires row { row < shape.height }
    ensures text { out.new.items
        ≡ out.old.items ++ shown_row shape.order shape.width (S.numbers rgb.now) row shape.width }
    ensures most { length out.new.items ≤ length out.old.items + 1920 }
{
    for column in 0..shape.width {
        push_pixel(out, pixel_at(rgb, shape, row, column));
    }
}

// The lines of all rows.
fn push_rows<S: Sample>(out: &mut Page, rgb: &[S; 16384], shape: Shape)
    requires { length out.old.items + 122880 ≤ 131072 }
    ensures text { out.new.items
        ≡ out.old.items ++ shown_rows shape.order shape.width (S.numbers rgb.now) shape.height }
    ensures most { length out.new.items ≤ length out.old.items + 122880 }
{
    for row in 0..shape.height {
        push_row(out, rgb, shape, row);
    }
}

// The last line, of what was clipped.
#[tactic(auto, unfolding(crate::specs::Table::clipped_text))]
fn push_clipped(out: &mut Page, c: Clipped)
    requires { length out.old.items + 20 ≤ 131072 }
    ensures { out.new.items ≡ out.old.items ++ clipped_text c }
{
    push_bytes(out, b"clipped ");
    push_field(out, c.below, b' ');
    push_field(out, c.above, b'\n');
}

// The table of a picture that stands in a buffer, and of what was clipped in it.
pub fn table_of<S: Sample>(rgb: &[S; 16384], shape: Shape, clipped: Clipped) -> Page
    ensures { result.items
        ≡ heading ++ shown_rows shape.order shape.width (S.numbers rgb.now) shape.height
        ++ clipped_text clipped }
{
    let mut out = Page::new();
    push_bytes(&mut out, b"row column r g b\n");
    push_rows(&mut out, rgb, shape);
    push_clipped(&mut out, clipped);
    out
}
