// Rows of samples of either width: bilinear chroma from a near and a far row, converted and stored, and what was clipped.
// A row that has one chroma row takes it as both: the weights of two equal rows are those of one.
// `first` and `third` are the chroma of the first and of the third letter, so one function serves RGB and BGR with three letters, RGBA and
// BGRA with four. Pairs of pixels go through arrays that the caller lends, up to 256 at a time (`blocks`); what the groups leave, at most two
// columns, and a row of fewer than 8 pairs before its tail, pixel by pixel.
// `row`, `source` and `scratch` stay three parameters, here and in the crates beside this one: a struct round two `&mut` would have to be
// taken apart in each function, since one lends parts of `row` and the other fields of `scratch`. The width and the number of samples go
// beside the rows, which may be longer: rows cut to them would have to be cut again for each group.
#![tactic(auto)]

pub mod groups;
pub mod singles;
pub mod whole;
