// The sides of a small picture, and the letters of its pixels.
ghost use Rattle.std.specs.Prelude.{◌≡◌, ◌+◌, ◌*◌, ◌≤◌, ◌<◌};
ghost use Rattle.yuv_support.specs.Picture.{channels_of};

use yuv_support::YuvSourceChannels;

// A picture that is small enough for a sheet. Its rows follow each other closely.
#[derive(Clone, Copy)]
pub struct Shape {
    pub order: YuvSourceChannels,
    pub width: u32,
    pub height: u32,
    pub ghost narrow: { width ≤ 64 },
    pub ghost low: { height ≤ 64 },
}

impl Shape {
    // Where the pixel at a row and a column begins; its first three letters lie within the buffer.
    #[tactic(auto, using(crate::proofs::Room::pixel_room))]
    pub fn begin(self, row: u32, column: u32) -> usize
        requires row { row < self.height }
        requires column { column < self.width }
        ensures place { result
            ≡ self.width * channels_of self.order * row + channels_of self.order * column }
        ensures room { result + 3 ≤ 16384 }
    {
        let channels = self.order.get_channels_count();
        let stride = self.width as usize * channels;
        stride * row as usize + channels * column as usize
    }
}
