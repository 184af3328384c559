// A small stored stream, damaged ones, and what is written: a line each with a name, what the library answers, and the planes or the output
// after the call. The samples are letters.
#![tactic(auto)]

mod cases;

use cases::{CASES, Call};
use images::YuvPlanarImage;
use sample::Sample;
use sample::plane::{PlaneMut, Size};
use std::fmt::Display;
use std::io;
use std::io::Write;
use y4m::{Written, Y4mFrame};

// ---- what is read

// Number, expected and received, then the sides, the sampling, the depth, whether a frame was read, and the place to go on at. No `Display`,
// here and in `show_written`: the records are y4m's, and so no `impl` may be here.
fn print_frame(rt: &impl Print, f: Y4mFrame) -> io::Result<()> {
    print!(rt;
        " {} {} {} {} {}",
        f.number, f.expected, f.received, f.width, f.height
    )?;
    print!(rt; " {} {} {} {}", f.sampling, f.depth, f.found, f.next)
}

fn print_plane<S: Display>(rt: &impl Print, plane: &[S]) -> io::Result<()> {
    print!(rt; ",")?;
    for sample in plane {
        print!(rt; " {sample}")?;
    }
    Ok(())
}

// The frame at a place, to be read into planes of 0s, of which Y has `luma` elements, and U and V have two.
#[derive(Clone, Copy)]
struct Reading {
    place: u64,
    luma: usize,
    luma_stride: u32,
    chroma_stride: u32,
}

fn read<S: Sample + Display>(rt: &HostRuntime, stream: &[u8], r: Reading) -> io::Result<()> {
    let zero = S::from_u16(0);
    let mut y = vec![in rt.alloc(); zero; r.luma]?;
    let mut u = vec![in rt.alloc(); zero; 2]?;
    let mut v = vec![in rt.alloc(); zero; 2]?;
    let f = y4m::read(
        stream,
        r.place,
        PlaneMut {
            elements: &mut y,
            stride: r.luma_stride,
        },
        PlaneMut {
            elements: &mut u,
            stride: r.chroma_stride,
        },
        PlaneMut {
            elements: &mut v,
            stride: r.chroma_stride,
        },
    );
    print_frame(rt, f)?;
    print_plane(rt, &y)?;
    print_plane(rt, &u)?;
    print_plane(rt, &v)
}

fn read_bytes(rt: &HostRuntime, stream: &[u8], place: u64, luma_stride: u32) -> io::Result<()> {
    let r = Reading {
        place,
        luma: 6,
        luma_stride,
        chroma_stride: 1,
    };
    read::<u8>(rt, stream, r)
}

fn read_words(rt: &HostRuntime, stream: &[u8], place: u64) -> io::Result<()> {
    let r = Reading {
        place,
        luma: 3,
        luma_stride: 3,
        chroma_stride: 2,
    };
    read::<u16>(rt, stream, r)
}

fn show_all(rt: &HostRuntime, cases: &[(&str, &[u8], Call)]) -> io::Result<()> {
    for &(name, stream, call) in cases {
        print!(rt; "{name}:")?;
        match call {
            Call::Header => print_frame(rt, y4m::header(stream))?,
            Call::Bytes(place) => read_bytes(rt, stream, place, 3)?,
            Call::Narrow(place) => read_bytes(rt, stream, place, 1)?,
            Call::Words(place) => read_words(rt, stream, place)?,
        }
        println!(rt;)?;
    }
    Ok(())
}

// ---- what is written

// The bytes of the output as text, those that are kept being stars.
fn show_written(rt: &impl Print, name: &str, w: Written, out: &[u8]) -> io::Result<()> {
    print!(rt;
        "{name}: {} {} {} {}, ",
        w.number, w.expected, w.received, w.written
    )?;
    io::writer(rt).write_all(out)?;
    println!(rt;)
}

fn write_headers(rt: &impl Print) -> io::Result<()> {
    let mut out = [b'*'; 48];
    let widest = Size {
        width: 16384,
        height: 1,
    };
    let w = y4m::write_header(1, 12, widest, &mut out);
    show_written(rt, "a header", w, &out)?;
    let least = Size {
        width: 1,
        height: 1,
    };
    let w = y4m::write_header(1, 8, least, &mut out);
    show_written(rt, "a header of 8 bits", w, &out)?;
    let mut out = [b'*'; 32];
    let largest = Size {
        width: 16384,
        height: 16384,
    };
    let w = y4m::write_header(0, 8, largest, &mut out);
    show_written(rt, "a header without room", w, &out)
}

// Two rows of two samples, with an element of padding between them.
fn write_bytes(rt: &impl Print, name: &str, depth: u32, out: &mut [u8]) -> io::Result<()> {
    let image: YuvPlanarImage<'_, u8> = YuvPlanarImage {
        y_plane: b"AB-CD",
        y_stride: 3,
        u_plane: b"E",
        u_stride: 1,
        v_plane: b"F",
        v_stride: 1,
        width: 2,
        height: 2,
    };
    let w = y4m::write_frame(0, depth, &image, out);
    show_written(rt, name, w, out)
}

// One sample of each plane, of 10 bits.
fn write_words(rt: &impl Print) -> io::Result<()> {
    let image: YuvPlanarImage<'_, u16> = YuvPlanarImage {
        y_plane: &[16961],
        y_stride: 1,
        u_plane: &[17475],
        u_stride: 1,
        v_plane: &[17989],
        v_stride: 1,
        width: 1,
        height: 1,
    };
    let mut out = [b'*'; 16];
    let w = y4m::write_frame(0, 10, &image, &mut out);
    show_written(rt, "a frame of 10 bits", w, &out)
}

// What cannot be written is lost, and the status is 0 all the same.
fn main(rt: HostRuntime) {
    let _ = show_all(&rt, &CASES);
    let _ = write_headers(&rt);
    let _ = write_bytes(&rt, "a frame", 8, &mut [b'*'; 16]);
    let _ = write_bytes(&rt, "a frame without room", 8, &mut [b'*'; 11]);
    let _ = write_bytes(&rt, "a frame of 10 bits from bytes", 10, &mut [b'*'; 11]);
    let _ = write_words(&rt);
}
