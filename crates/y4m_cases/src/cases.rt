// The calls that read, each with its name and its stream.

// What is asked of a stream: its header, or the frame at a place, into planes of bytes, into planes
// of bytes whose rows of Y are too close together, or into planes of `u16`. The header is asked for
// at no place, so its case has none.
#[derive(Clone, Copy)]
pub enum Call {
    Header,
    Bytes(u64),
    Narrow(u64),
    Words(u64),
}

const STORED: &[u8] = b"YUV4MPEG2 W2 H2 F25:1 Ip\nFRAME\nABCDEFFRAME I1\nGHIJKL";

pub const CASES: [(&str, &[u8], Call); 36] = [
    // The stored stream.
    ("the stored stream's header", STORED, Call::Header),
    ("its first frame", STORED, Call::Bytes(0)),
    ("the same by its place", STORED, Call::Bytes(25)),
    ("its second frame", STORED, Call::Bytes(37)),
    ("after it", STORED, Call::Bytes(52)),
    // Other places of it.
    ("a place inside the header", STORED, Call::Bytes(24)),
    ("a place past the end", STORED, Call::Bytes(53)),
    ("a place that has no frame line", STORED, Call::Bytes(36)),
    // Other planes for it.
    ("a stride that is too small", STORED, Call::Narrow(0)),
    (
        "a stride that is too small, at the end",
        STORED,
        Call::Narrow(52),
    ),
    ("u16 planes", STORED, Call::Words(0)),
    ("u16 planes, at the end", STORED, Call::Words(52)),
    // Fields that are missing or repeated.
    ("no H", b"YUV4MPEG2 W2\nFRAME\n", Call::Header),
    ("W twice", b"YUV4MPEG2 W2 H2 W2\n", Call::Header),
    ("C twice", b"YUV4MPEG2 W2 H2 C422 C422\n", Call::Header),
    ("two spaces", b"YUV4MPEG2 W2  H2\n", Call::Header),
    ("a space at the end", b"YUV4MPEG2 W2 H2 \n", Call::Header),
    // Damaged header lines.
    ("no byte 10", b"YUV4MPEG2 W2 H2", Call::Header),
    ("another word", b"YUV4MPEG W2 H2\n", Call::Header),
    ("W without digits", b"YUV4MPEG2 W H2\n", Call::Header),
    ("H with a letter", b"YUV4MPEG2 W2 H2x\n", Call::Header),
    ("another C", b"YUV4MPEG2 W2 H2 C420mpeg2\n", Call::Header),
    ("an empty C", b"YUV4MPEG2 W2 H2 C\n", Call::Header),
    // Sides.
    ("W 0", b"YUV4MPEG2 W0 H2\n", Call::Header),
    ("H 16385", b"YUV4MPEG2 W2 H16385\n", Call::Header),
    (
        "W of 2^64 + 2",
        b"YUV4MPEG2 W18446744073709551618 H2\n",
        Call::Header,
    ),
    (
        "leading zeros",
        b"YUV4MPEG2 W0002 H016384 C422p12\n",
        Call::Header,
    ),
    // Damaged frames.
    (
        "a byte missing",
        b"YUV4MPEG2 W2 H2\nFRAME\nABCDE",
        Call::Bytes(0),
    ),
    ("FRAMES", b"YUV4MPEG2 W2 H2\nFRAMES\nABCDEF", Call::Bytes(0)),
    (
        "FRAME and a space",
        b"YUV4MPEG2 W2 H2\nFRAME \nABCDEF",
        Call::Bytes(0),
    ),
    ("a cut frame line", b"YUV4MPEG2 W2 H2\nFRAM", Call::Bytes(0)),
    ("no frame", b"YUV4MPEG2 W2 H2\n", Call::Bytes(0)),
    // Other frames.
    (
        "a frame line inside the header",
        b"YUV4MPEG2 W1 H1 XFRAME\nABC",
        Call::Bytes(17),
    ),
    (
        "a bad frame line under an unknown C",
        b"YUV4MPEG2 W2 H2 C444\nFRAMES\n",
        Call::Bytes(0),
    ),
    (
        "10 bits in byte planes",
        b"YUV4MPEG2 W1 H1 C420p10\nFRAME\nABCDEF",
        Call::Bytes(0),
    ),
    (
        "10 bits",
        b"YUV4MPEG2 W1 H1 C420p10\nFRAME\nABCDEF",
        Call::Words(0),
    ),
];
