// The picture of a sheet written into a lent output, from planes of any length that has the sheet's samples.
ghost use Rattle.yuv_support.specs.Settings.{depths};
ghost use Rattle.yuv_support.specs.Questions.{decoded};
ghost use Rattle.std.specs.Prelude.{◌≤◌};
ghost use Rattle.sheet_writing.specs.Text.{Wrote};
ghost use Rattle.sheet_values.specs.Values.{codes_of, widest};
ghost use Rattle.sheet_table.specs.Table.{table};
ghost use Rattle.sheet_picture.specs.Samples.{Fit, Samples, planes_frame};

use crate::picture_at;
use elements::Element;
use sheet_table::lent::{places_of, put_clipped, put_table};
use sheet_values::{Known, Values};
use yuv_support::Codes;

// The table of a picture with elements of one width, at the begin of the output.
fn put_at<S: Element>(
    out: &mut [u8; 131072],
    known: Known,
    y: &[u32],
    u: &[u32],
    w: &[u32],
) -> usize
    requires fit { Fit S.known known.values }
    requires samples { Samples S.most known.values y.now u.now w.now }
    requires wide { S.most ≤ 65535 }
    ensures written { Wrote out.old 0
        (table (decoded (codes_of known.values)) (planes_frame known.values y.now u.now w.now))
        out.new result }
    ensures fits { result ≤ 131072 }
{
    let mut rgb = [S::from_u16(0); 16384];
    let clipped = picture_at(known, y, u, w, &mut rgb);
    let places = places_of(
        known.settings.order,
        known.values.width,
        known.values.height,
    );
    let at = put_table(out, &rgb, places);
    put_clipped(out, at, clipped)
}

// The table of the picture with its last line, at the begin of the output: from bytes at depth 8, else from elements of 16 bits.
pub fn put_picture(out: &mut [u8; 131072], v: Values, y: &[u32], u: &[u32], w: &[u32]) -> usize
    requires fit { Fit depths v }
    requires samples { Samples (widest v) v y.now u.now w.now }
    ensures written { Wrote out.old 0
        (table (decoded (codes_of v)) (planes_frame v y.now u.now w.now)) out.new result }
    ensures fits { result ≤ 131072 }
{
    let settings = yuv_support::decode(Codes::from(v));
    let known = Known {
        values: v,
        settings,
    };
    if v.depth == 8 {
        return put_at::<u8>(out, known, y, u, w);
    }
    put_at::<u16>(out, known, y, u, w)
}
