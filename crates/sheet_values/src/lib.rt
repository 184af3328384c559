// The seven values of a sheet: the codes and the sides that they are, how many samples they ask for, and what questions 1, 2 and 15 ask of
// them.
#![tactic(auto)]

ghost use Rattle.std.specs.Prelude.{◌≡◌, ◌*◌};
ghost use Rattle.yuv_support.specs.Settings.{among, depths};
ghost use Rattle.yuv_support.specs.Blend.{chroma_width, chroma_height};
ghost use Rattle.yuv_support.specs.Questions.{codes_known, decoded};
ghost use Rattle.sheet_values.specs.Values.{codes_of, image_of, luma_count, chroma_count, widest, is_small, values_in};
ghost use Rattle.sheet_values.specs.Known.{number_of, settings_of};

use sample::depths::EitherElement;
use sample::plane::Size;
use yuv_error::YuvError;
use yuv_support::{Codes, Geometry, Settings, YuvChromaSubsampling};

// Why no table is printed: the first question that gets a "no".
#[derive(Clone, Copy, Debug, PartialEq, Eq)]
pub enum Refusal {
    // 1
    UnknownSampling,
    // 2
    UnknownCode,
    // 15: the text, a side or the matrix is not that of a sheet
    Malformed,
}

// The number of the question. By a match: its definition is over the cases.
impl From<Refusal> for u32 {
    ghost from_gives = { λ why n. n ≡ number_of why };

    fn from(why: Refusal) -> u32 {
        match why {
            Refusal::UnknownSampling => 1,
            Refusal::UnknownCode => 2,
            Refusal::Malformed => 15,
        }
    }
}

// The values of a sheet's second line. The codes stand as they are read: questions 1, 2 and 15 say which of them name something.
#[derive(Clone, Copy, Debug, PartialEq, Eq)]
pub struct Values {
    pub depth: u32,
    pub sampling: u32,
    pub order: u32,
    pub range: u32,
    pub matrix: u32,
    pub width: u32,
    pub height: u32,
}

// In the order of the line.
impl From<[u32; 7]> for Values {
    ghost from_gives = { λ numbers v. v ≡ values_in numbers };

    fn from(numbers: [u32; 7]) -> Values {
        let [depth, sampling, order, range, matrix, width, height] = numbers;
        Values {
            depth,
            sampling,
            order,
            range,
            matrix,
            width,
            height,
        }
    }
}

// Samples in the low bits, the mode of the source, no weights.
impl From<Values> for Codes {
    ghost from_gives = { λ v codes. codes ≡ codes_of v };

    fn from(v: Values) -> Codes {
        Codes {
            depth: v.depth,
            sampling: v.sampling,
            order: v.order,
            range: v.range,
            matrix: v.matrix,
            packing: 0,
            mode: 0,
            kr: 0.0,
            kb: 0.0,
        }
    }
}

// Rows that follow each other closely.
impl From<Values> for Geometry {
    ghost from_gives = { λ v image. image ≡ image_of v };

    fn from(v: Values) -> Geometry {
        let chroma_width = images::chroma_width(v.width);
        Geometry {
            width: v.width,
            height: v.height,
            y_stride: v.width,
            u_stride: chroma_width,
            v_stride: chroma_width,
        }
    }
}

impl Values {
    // The samples of luma.
    pub fn luma_count(self) -> usize
        ensures { result ≡ luma_count self }
    {
        self.width as usize * self.height as usize
    }

    // The samples of one chroma plane, whether or not questions 1 and 2 are answered: sampling 0 is 4:2:0, and each other is 4:2:2.
    pub fn chroma_count(self) -> usize
        ensures { result ≡ chroma_count self }
    {
        self.chroma_samples(yuv_support::sampling_of(self.sampling))
    }

    // The samples of one chroma plane, at a sampling.
    fn chroma_samples(self, sampling: YuvChromaSubsampling) -> usize
        ensures { result ≡ chroma_width self.width * chroma_height sampling self.height }
    {
        let luma = Size {
            width: self.width,
            height: self.height,
        };
        let chroma = images::chroma_size(sampling, luma);
        chroma.width as usize * chroma.height as usize
    }

    // The largest sample of the element's width.
    pub fn widest(self) -> u32
        ensures { result ≡ widest self }
    {
        if self.depth == 8 { 255 } else { 65535 }
    }

    // Questions 1 and 2, and the settings that the codes stand for. No `From` of the error: only those two have a refusal of a sheet.
    #[tactic(auto, unfolding(yuv_error::specs::Asked::asked))]
    pub fn settings(self) -> Result<Settings, Refusal>
        ensures { result ≡ settings_of self }
    {
        images::decode::<EitherElement>(Codes::from(self)).map_err(|error| match error {
            YuvError::UnknownSampling => Refusal::UnknownSampling,
            _ => Refusal::UnknownCode,
        })
    }

    // Question 2 alone: it is answered of any sampling.
    #[tactic(auto, unfolding(yuv_error::specs::Asked::asked))]
    pub fn is_known(self) -> bool
        ensures { result ≡ (codes_known (among self.depth depths) (codes_of self)).holds }
    {
        images::check_codes::<EitherElement>(Codes::from(self)).is_ok()
    }

    // Whether sides and matrix are those of a sheet, which question 15 asks.
    pub fn is_small(self) -> bool
        ensures { result ≡ is_small self }
    {
        (1..=64).contains(&self.width) && (1..=64).contains(&self.height) && self.matrix <= 5
    }
}

// Values of which questions 1 and 2 are answered, with the settings that their codes stand for.
#[derive(Clone, Copy, Debug, PartialEq)]
pub struct Known {
    pub values: Values,
    pub settings: Settings,
    pub ghost answered: { settings ≡ decoded (codes_of values) },
}

impl Known {
    // The samples of one chroma plane.
    pub fn chroma_count(self) -> usize
        ensures { result ≡ chroma_count self.values }
    {
        self.values.chroma_samples(self.settings.sampling)
    }
}
