// Planes of samples of either width: chroma woven together and taken apart, and the samples as
// bytes of a stream.
#![tactic(auto)]

pub mod stream;
pub mod weave;
