// What a refused call answers. The names of 3 to 12 are the source's; its one name for the four chroma questions is four here.
ghost use Rattle.std.specs.Prelude.{◌≡◌};
ghost use Rattle.yuv_error.specs.declared.error.YuvError.TheVariants.{UnknownCode};

use std::error::Error;
use std::fmt;
use yuv_support::known_codes;

// What was needed and what was there.
#[derive(Clone, Copy, Debug, PartialEq, Eq)]
pub struct MismatchedSize {
    pub expected: u64,
    pub received: u64,
}

// The question that got the first "no". Some cases have sizes and some none: document 01 tells two sizes of these questions alone.
#[derive(Clone, Copy, Debug, PartialEq, Eq)]
pub enum YuvError {
    // 1, where the source panics
    UnknownSampling,
    // 2
    UnknownCode,
    // 3
    ZeroBaseSize,
    // 4: a side above 16,384, in the overflow check's place
    PointerOverflow,
    // 5
    DestinationSizeMismatch(MismatchedSize),
    // 6
    MinimumStrideSizeMismatch(MismatchedSize),
    // 7
    LumaPlaneMinimumSizeMismatch(MismatchedSize),
    // 8
    LumaPlaneSizeMismatch(MismatchedSize),
    // 9
    UPlaneMinimumSizeMismatch(MismatchedSize),
    // 10
    UPlaneSizeMismatch(MismatchedSize),
    // 11
    VPlaneMinimumSizeMismatch(MismatchedSize),
    // 12
    VPlaneSizeMismatch(MismatchedSize),
    // 13
    UnusableWeights,
    // 14
    RowOutside,
    // 16
    MalformedStream,
    // 17
    UnknownStream,
    // 18
    ShortFrame,
    // 19
    UnusableFirstRow,
    // 22
    UnusablePlane,
}

impl fmt::Display for MismatchedSize {
    fn fmt<W: fmt::Write>(&self, f: &mut fmt::Formatter<W>) -> fmt::Result {
        write!(f, "{} needed, {} there", self.expected, self.received)
    }
}

impl fmt::Display for YuvError {
    fn fmt<W: fmt::Write>(&self, f: &mut fmt::Formatter<W>) -> fmt::Result {
        match self {
            YuvError::UnknownSampling => write!(f, "the code of the sampling is unknown"),
            YuvError::UnknownCode => write!(f, "a code is unknown"),
            YuvError::ZeroBaseSize => write!(f, "a side is zero"),
            YuvError::PointerOverflow => write!(f, "a side is above 16384"),
            YuvError::DestinationSizeMismatch(s) => write!(f, "destination too short: {s}"),
            YuvError::MinimumStrideSizeMismatch(s) => write!(
                f,
                "destination stride too small: {s}"
            ),
            YuvError::LumaPlaneMinimumSizeMismatch(s) => write!(f, "luma stride too small: {s}"),
            YuvError::LumaPlaneSizeMismatch(s) => write!(f, "luma plane too short: {s}"),
            YuvError::UPlaneMinimumSizeMismatch(s) => write!(f, "U stride too small: {s}"),
            YuvError::UPlaneSizeMismatch(s) => write!(f, "U plane too short: {s}"),
            YuvError::VPlaneMinimumSizeMismatch(s) => write!(f, "V stride too small: {s}"),
            YuvError::VPlaneSizeMismatch(s) => write!(f, "V plane too short: {s}"),
            YuvError::UnusableWeights => write!(f, "the weights are unusable"),
            YuvError::RowOutside => write!(f, "the row is outside the picture"),
            YuvError::MalformedStream => write!(f, "the stream is malformed"),
            YuvError::UnknownStream => write!(f, "the stream is of an unknown kind"),
            YuvError::ShortFrame => write!(f, "the frame is cut short"),
            YuvError::UnusableFirstRow => write!(f, "no band can begin at this row"),
            YuvError::UnusablePlane => write!(f, "the plane is unusable"),
        }
    }
}

impl Error for YuvError {}

impl From<known_codes::UnknownCode> for YuvError {
    ghost from_gives = { λ _ e. e ≡ UnknownCode };

    fn from(_e: known_codes::UnknownCode) -> YuvError {
        YuvError::UnknownCode
    }
}
