// Why a call is refused, by name: one error for each question that can get a "no". The numbers that an answer is handed out by. And the
// checks of one buffer, questions 3 to 12 of document 01.
#![tactic(auto)]

pub mod buffers;
pub mod error;
pub mod report;

pub use crate::buffers::{Buffer, Channel};
pub use crate::error::{MismatchedSize, YuvError};
pub use crate::report::{Band, BandReport, Report, Told};
