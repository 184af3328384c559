// The numbers that an answer is handed out by: number, expected and received of an error, and three zeros where the call is accepted.
// `told_of`, `report_of`, `answer_alone` and `band_report_of` are public functions that stay, and no `From`: the first is of any result, and
// the last needs the first row too.
// Number, expected and received stand in each record, and no `Told` in it: C's records are flat.
ghost use Rattle.std.specs.Prelude.{◌≡◌, ◌+◌, ◌<◌, ◌^◌};
ghost use Rattle.yuv_support.specs.Counts.{unclipped};
ghost use Rattle.yuv_support.specs.Questions.{accepted};
ghost use Rattle.yuv_error.specs.Told.{told, answered, clipped_of, band_clipped_of, rows_of, as_told, as_report, band_numbers, as_band_report};

use crate::error::{MismatchedSize, YuvError};
use yuv_support::Clipped;

// Number, expected and received.
#[repr(C)]
#[derive(Clone, Copy, Debug, PartialEq, Eq)]
pub struct Told {
    pub number: u64,
    pub expected: u64,
    pub received: u64,
}

// The same of a conversion, and what was clipped.
#[repr(C)]
#[derive(Clone, Copy, Debug, PartialEq, Eq)]
pub struct Report {
    pub number: u64,
    pub expected: u64,
    pub received: u64,
    pub below: u64,
    pub above: u64,
}

// The same of a band, then how many rows were written, and the next first row.
#[repr(C)]
#[derive(Clone, Copy, Debug, PartialEq, Eq)]
pub struct BandReport {
    pub number: u64,
    pub expected: u64,
    pub received: u64,
    pub below: u64,
    pub above: u64,
    pub rows: u64,
    pub next: u64,
}

// What an accepted band leaves: how many rows were written, what was clipped, and the next first row.
#[derive(Clone, Copy, Debug, PartialEq, Eq)]
pub struct Band {
    pub rows: u32,
    pub clipped: Clipped,
    pub next: u32,
}

fn refused(number: u64) -> Told
    ensures { result ≡ record { number = number; expected = 0; received = 0 } }
{
    Told {
        number,
        expected: 0,
        received: 0,
    }
}

fn mismatched(number: u64, size: MismatchedSize) -> Told
    ensures { result
        ≡ record { number = number; expected = size.expected; received = size.received } }
{
    Told {
        number,
        expected: size.expected,
        received: size.received,
    }
}

impl From<YuvError> for Told {
    ghost from_gives = { λ e t. t ≡ as_told (told e) };

    // A number for each case, written out: documents 01 and 02 number the questions, with gaps, and `told` says the same by cases.
    fn from(e: YuvError) -> Told {
        match e {
            YuvError::UnknownSampling => refused(1),
            YuvError::UnknownCode => refused(2),
            YuvError::ZeroBaseSize => refused(3),
            YuvError::PointerOverflow => refused(4),
            YuvError::DestinationSizeMismatch(size) => mismatched(5, size),
            YuvError::MinimumStrideSizeMismatch(size) => mismatched(6, size),
            YuvError::LumaPlaneMinimumSizeMismatch(size) => mismatched(7, size),
            YuvError::LumaPlaneSizeMismatch(size) => mismatched(8, size),
            YuvError::UPlaneMinimumSizeMismatch(size) => mismatched(9, size),
            YuvError::UPlaneSizeMismatch(size) => mismatched(10, size),
            YuvError::VPlaneMinimumSizeMismatch(size) => mismatched(11, size),
            YuvError::VPlaneSizeMismatch(size) => mismatched(12, size),
            YuvError::UnusableWeights => refused(13),
            YuvError::RowOutside => refused(14),
            YuvError::MalformedStream => refused(16),
            YuvError::UnknownStream => refused(17),
            YuvError::ShortFrame => refused(18),
            YuvError::UnusableFirstRow => refused(19),
            YuvError::UnusablePlane => refused(22),
        }
    }
}

// Nothing: what a refused call clips.
fn unclipped() -> Clipped
    ensures { result ≡ unclipped }
{
    Clipped { below: 0, above: 0 }
}

// An answer of a conversion, with what was clipped.
fn counted(told: Told, clipped: Clipped) -> Report
    ensures { result
        ≡ record {
          number = told.number;
          expected = told.expected;
          received = told.received;
          below = clipped.below;
          above = clipped.above;
        } }
{
    Report {
        number: told.number,
        expected: told.expected,
        received: told.received,
        below: clipped.below as u64,
        above: clipped.above as u64,
    }
}

// An answer of a band, and the next first row.
fn placed(told: Told, band: Band, next: u64) -> BandReport
    ensures { result
        ≡ record {
          number = told.number;
          expected = told.expected;
          received = told.received;
          below = band.clipped.below;
          above = band.clipped.above;
          rows = band.rows;
          next = next;
        } }
{
    let report = counted(told, band.clipped);
    BandReport {
        number: report.number,
        expected: report.expected,
        received: report.received,
        below: report.below,
        above: report.above,
        rows: band.rows as u64,
        next,
    }
}

// The numbers of an answer, whatever an accepted call leaves. By a match: its two cases are those of `answered`.
pub fn told_of<T: Drop>(answer: Result<T, YuvError>) -> Told
    ensures { result ≡ as_told (answered answer) }
{
    match answer {
        Ok(_) => refused(0),
        Err(e) => Told::from(e),
    }
}

// The answer of a call that converts nothing.
pub fn answer_alone(answer: Result<(), YuvError>) -> Report
    ensures { result ≡ as_report (answered answer) unclipped }
{
    counted(told_of(answer), unclipped())
}

// An answer and counts, whatever they are.
pub fn report_with(answer: Result<(), YuvError>, clipped: Clipped) -> Report
    ensures { result ≡ as_report (answered answer) clipped }
{
    counted(told_of(answer), clipped)
}

// The answer of a conversion; a refused one clips nothing.
pub fn report_of(answer: Result<Clipped, YuvError>) -> Report
    ensures { result ≡ as_report (answered answer) (clipped_of answer) }
{
    counted(told_of(answer), answer.unwrap_or(unclipped()))
}

// An answer and a band, whatever the band has: its rows, its counts and its next first row.
pub fn band_report_with(answer: Result<(), YuvError>, band: Band) -> BandReport
    ensures { result ≡ band_numbers (answered answer) band.clipped band.rows band.next }
{
    placed(told_of(answer), band, band.next as u64)
}

// The answer of a band from row `first` on; a refused one writes no row and clips nothing, and the next first row is its own.
pub fn band_report_of(answer: Result<Band, YuvError>, first: u32) -> BandReport
    ensures { result
        ≡ as_band_report (answered answer) (band_clipped_of answer) first (rows_of answer) }
{
    let nothing = Band {
        rows: 0,
        clipped: unclipped(),
        next: first,
    };
    let band = answer.unwrap_or(nothing);
    let next = first as u64 + band.rows as u64;
    placed(told_of(answer), band, next)
}
