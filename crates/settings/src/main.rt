// Prints the settings used for the 36 named settings of mode 0, a line each: the codes, the verdict's number, M, the biases and the five
// coefficients.
#![tactic(auto)]

use std::io;
use yuv_support::Codes;

// The line of one setting. Sampling, order and packing have no part in it, and the weights count for Custom only, which has no name.
// Range and matrix are numbers here, since their codes are printed and no enum gives its code. No `Display`: the record is settings_used's,
// and so no `impl` may be here.
fn print_setting(rt: &impl Print, depth: u32, range: u32, matrix: u32) -> io::Result<()> {
    let s = settings_used::settings_used(Codes {
        depth,
        sampling: 0,
        order: 0,
        range,
        matrix,
        packing: 0,
        mode: 0,
        kr: 0.0,
        kb: 0.0,
    });
    println!(rt;
        "{depth} {range} {matrix} {} {} {} {} {} {} {} {} {}",
        s.number, s.max, s.bias_y, s.bias_uv, s.y, s.cr, s.cb, s.g1, s.g2
    )
}

// A line that cannot be written is lost, and the status is 0 all the same.
fn main(rt: HostRuntime) {
    let _ = println!(rt; "depth range matrix number max bias_y bias_uv y cr cb g1 g2");
    for depth in [8, 10, 12] {
        for range in 0..2 {
            for matrix in 0..6 {
                let _ = print_setting(&rt, depth, range, matrix);
            }
        }
    }
}
