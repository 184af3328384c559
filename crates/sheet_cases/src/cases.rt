// The small sheets, each with its name.

// What comes after the line of names, or all bytes of a sheet that need not begin with it.
#[derive(Clone, Copy)]
pub enum Input {
    Named(&'static str),
    Bytes(&'static [u8]),
}

pub const CASES: [(&str, Input); 57] = [
    // Sheets that are converted.
    (
        "the marked sheet",
        Input::Named("8 0 0 1 0 2 1\n100 50\n128\n228\n"),
    ),
    (
        "the order BGRA prints red first all the same",
        Input::Named("8 0 2 1 0 2 1\n100 50\n128\n228\n"),
    ),
    (
        "the order BGR, limited BT.709",
        Input::Named(
            "8 0 3 0 1 3 3\n16 235 128\n100 90 80\n10 20 30\n90 160\n140 200\n100 128\n30 240\n",
        ),
    ),
    (
        "the order RGBA, 4:2:2, Smpte240",
        Input::Named("8 1 1 1 3 3 2\n100 150 200\n50 60 70\n128 100\n90 80\n178 128\n20 250\n"),
    ),
    (
        "matrix 4 at depth 8, one pixel",
        Input::Named("8 1 0 0 4 1 1\n120\n60\n200\n"),
    ),
    (
        "matrix 5 at depth 8",
        Input::Named("8 0 0 1 5 2 2\n0 255\n10 128\n128\n130\n"),
    ),
    (
        "depth 10, limited BT.601, neutral",
        Input::Named("10 0 0 0 0 2 2\n940 64\n500 0\n512\n512\n"),
    ),
    (
        "depth 10, matrix 3 has no stored row",
        Input::Named("10 1 1 0 3 4 1\n100 400 700 1000\n512 300\n700 100\n"),
    ),
    (
        "depth 12, full BT.2020, 4:2:0, odd sides",
        Input::Named(
            "12 0 3 1 2 3 3\n4095 0 2048\n1000 2000 3000\n1 2 3\n2048 1000\n3000 4000\n2100 10\n20 4095\n",
        ),
    ),
    (
        "depth 12, samples above 4095",
        Input::Named("12 1 0 1 5 2 1\n65535 4096\n65535\n65535\n"),
    ),
    (
        "full BT.601, neutral, clips nothing",
        Input::Named("8 0 0 1 0 2 1\n0 255\n128\n128\n"),
    ),
    (
        "leading zeros",
        Input::Named("008 00000 0 01 000 00002 1\n00100 050\n00128\n228\n"),
    ),

    // Questions 1 and 2.
    (
        "sampling 2",
        Input::Named("8 2 0 1 0 2 1\n100 50\n128\n228\n"),
    ),
    (
        "sampling 2 comes before the other codes, the sides and the rest",
        Input::Named("9 2 4 2 7 0 65\n"),
    ),
    (
        "sampling 99999 with nothing after the second line",
        Input::Named("8 99999 0 0 0 1 1\n"),
    ),
    ("order 4", Input::Named("8 0 4 1 0 2 1\n100 50\n128\n228\n")),
    ("range 2", Input::Named("8 0 0 2 0 2 1\n100 50\n128\n228\n")),
    (
        "matrix 7",
        Input::Named("8 0 0 1 7 2 1\n100 50\n128\n228\n"),
    ),
    ("depth 9", Input::Named("9 0 0 1 0 2 1\n100 50\n128\n228\n")),
    (
        "depth 16 comes before sides of 0",
        Input::Named("16 0 0 1 0 0 0\n"),
    ),

    // Sides and matrix of question 15.
    (
        "matrix 6 is Custom",
        Input::Named("8 0 0 1 6 2 1\n100 50\n128\n228\n"),
    ),
    ("width 0", Input::Named("8 0 0 1 0 0 1\n\n\n\n")),
    ("height 0", Input::Named("8 0 0 1 0 2 0\n")),
    (
        "width 65",
        Input::Named(
            "8 0 0 1 0 65 1\n1 1 1 1 1 1 1 1 1 1 1 1 1 1 1 1 1 1 1 1 1 1 1 1 1 1 1 1 1 1 1 1 1 1 1 1 1 1 1 1 1 1 1 1 1 1 1 1 1 1 1 1 1 1 1 1 1 1 1 1 1 1 1 1 1\n2 2 2 2 2 2 2 2 2 2 2 2 2 2 2 2 2 2 2 2 2 2 2 2 2 2 2 2 2 2 2 2 2\n3 3 3 3 3 3 3 3 3 3 3 3 3 3 3 3 3 3 3 3 3 3 3 3 3 3 3 3 3 3 3 3 3\n",
        ),
    ),
    (
        "height 65, 4:2:2, width 1",
        Input::Named(
            "8 1 0 1 0 1 65\n1\n1\n1\n1\n1\n1\n1\n1\n1\n1\n1\n1\n1\n1\n1\n1\n1\n1\n1\n1\n1\n1\n1\n1\n1\n1\n1\n1\n1\n1\n1\n1\n1\n1\n1\n1\n1\n1\n1\n1\n1\n1\n1\n1\n1\n1\n1\n1\n1\n1\n1\n1\n1\n1\n1\n1\n1\n1\n1\n1\n1\n1\n1\n1\n1\n1\n1\n1\n1\n1\n1\n1\n1\n1\n1\n1\n1\n1\n1\n1\n1\n1\n1\n1\n1\n1\n1\n1\n1\n1\n1\n1\n1\n1\n1\n1\n1\n1\n1\n1\n1\n1\n1\n1\n1\n1\n1\n1\n1\n1\n1\n1\n1\n1\n1\n1\n1\n1\n1\n1\n1\n1\n1\n1\n1\n1\n1\n1\n1\n1\n1\n1\n1\n1\n1\n1\n1\n1\n1\n1\n1\n1\n1\n1\n1\n1\n1\n1\n1\n1\n1\n1\n1\n1\n1\n1\n1\n1\n1\n1\n1\n1\n1\n1\n1\n1\n1\n1\n1\n1\n1\n1\n1\n1\n1\n1\n1\n1\n1\n1\n1\n1\n1\n1\n1\n1\n1\n1\n1\n1\n1\n1\n1\n1\n1\n",
        ),
    ),
    (
        "width 64",
        Input::Named(
            "8 0 0 1 0 64 1\n1 1 1 1 1 1 1 1 1 1 1 1 1 1 1 1 1 1 1 1 1 1 1 1 1 1 1 1 1 1 1 1 1 1 1 1 1 1 1 1 1 1 1 1 1 1 1 1 1 1 1 1 1 1 1 1 1 1 1 1 1 1 1 1\n2 2 2 2 2 2 2 2 2 2 2 2 2 2 2 2 2 2 2 2 2 2 2 2 2 2 2 2 2 2 2 2\n3 3 3 3 3 3 3 3 3 3 3 3 3 3 3 3 3 3 3 3 3 3 3 3 3 3 3 3 3 3 3 3\n",
        ),
    ),

    // Samples and lines of question 15.
    (
        "a byte sample of 256",
        Input::Named("8 0 0 1 0 2 1\n256 50\n128\n228\n"),
    ),
    (
        "a chroma sample of 256",
        Input::Named("8 0 0 1 0 2 1\n255 50\n128\n256\n"),
    ),
    (
        "a u16 sample of 65536",
        Input::Named("10 0 0 1 0 2 1\n65536 50\n128\n228\n"),
    ),
    (
        "a number of six digits",
        Input::Named("8 0 0 1 0 2 1\n000100 50\n128\n228\n"),
    ),
    (
        "two spaces",
        Input::Named("8 0 0 1 0 2 1\n100  50\n128\n228\n"),
    ),
    (
        "a space at the end of a line",
        Input::Named("8 0 0 1 0 2 1\n100 50 \n128\n228\n"),
    ),
    (
        "a line that begins with a space",
        Input::Named("8 0 0 1 0 2 1\n 100 50\n128\n228\n"),
    ),
    (
        "a tab for a space",
        Input::Named("8 0 0 1 0 2 1\n100\t50\n128\n228\n"),
    ),
    (
        "byte 13 before byte 10",
        Input::Named("8 0 0 1 0 2 1\n100 50\r\n128\n228\n"),
    ),
    (
        "a minus sign",
        Input::Named("8 0 0 1 0 2 1\n100 -5\n128\n228\n"),
    ),
    (
        "a row too short",
        Input::Named("8 0 0 1 0 2 1\n100\n128\n228\n"),
    ),
    (
        "a row too long",
        Input::Named("8 0 0 1 0 2 1\n100 50 20\n128\n228\n"),
    ),
    (
        "a row missing",
        Input::Named("8 0 0 1 0 2 1\n100 50\n128\n"),
    ),
    (
        "the last byte 10 missing",
        Input::Named("8 0 0 1 0 2 1\n100 50\n128\n228"),
    ),
    (
        "a byte over",
        Input::Named("8 0 0 1 0 2 1\n100 50\n128\n228\n\n"),
    ),
    (
        "a row over",
        Input::Named("8 0 0 1 0 2 1\n100 50\n128\n228\n1\n"),
    ),
    (
        "one line for two rows",
        Input::Named("8 1 0 1 0 1 2\n1 2\n128\n128\n128\n128\n"),
    ),

    // Damage to the first two lines, which comes before every question.
    (
        "six values",
        Input::Named("8 0 0 1 0 2\n100 50\n128\n228\n"),
    ),
    (
        "eight values",
        Input::Named("8 0 0 1 0 2 1 1\n100 50\n128\n228\n"),
    ),
    (
        "a value of six digits, before sampling 2",
        Input::Named("8 2 0 1 0 000002 1\n100 50\n128\n228\n"),
    ),
    (
        "a value that is no number",
        Input::Named("8 0 0 1 x 2 1\n100 50\n128\n228\n"),
    ),
    (
        "a second line without its end",
        Input::Named("8 0 0 1 0 2 1"),
    ),
    ("no second line", Input::Named("")),
    (
        "a name in capitals",
        Input::Bytes(
            b"Depth sampling order range matrix width height\n8 0 0 1 0 2 1\n100 50\n128\n228\n",
        ),
    ),
    (
        "a name missing, before sampling 2",
        Input::Bytes(b"depth order range matrix width height\n8 2 0 1 0 2 1\n"),
    ),
    (
        "a line before the names",
        Input::Bytes(
            b"\ndepth sampling order range matrix width height\n8 0 0 1 0 2 1\n100 50\n128\n228\n",
        ),
    ),
    (
        "the names without byte 10",
        Input::Bytes(b"depth sampling order range matrix width height"),
    ),
    ("empty", Input::Bytes(b"")),
    ("a byte 0", Input::Bytes(b"\x00")),
    (
        "bytes that are no text",
        Input::Bytes(b"\x00\xff\n\r\x7f\x80\x07\x1b\xc8 09:/"),
    ),
    (
        "a byte 0 among the samples",
        Input::Named("8 0 0 1 0 2 1\n100\x0050\n128\n228\n"),
    ),
];
