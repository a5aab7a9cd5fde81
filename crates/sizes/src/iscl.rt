// Image scaling (ISO/IEC 23008-12, 6.5.13): the size that it gives.
ghost use Rattle.std.specs.Prelude.{◌≡◌, ◌<◌};
ghost use Rattle.sizes.specs.Scale.{scaled_side, within_of, scale_of};

use image::{PixelFormat, Size};
use laws::Refusal;

#[derive(Clone, Copy)]
pub struct Iscl {
    pub width_num: u16,
    pub width_den: u16,
    pub height_num: u16,
    pub height_den: u16,
}

// side * num / den, rounded up.
#[tactic(auto, unfolding(crate::specs::Scale::scaled_side))]
fn scaled_side(side: u32, num: u16, den: u16) -> u64
    requires { 0 < den }
    ensures { result ≡ scaled_side side num den }
{
    let d = den as u64;
    (side as u64 * num as u64 + (d - 1)) / d
}

// A size that differs from the one before, held to the limits.
#[tactic(auto, unfolding(crate::specs::Scale::within_of, laws::specs::Out::refuse))]
fn within(before: Size, after: Size) -> Result<Size, Refusal>
    ensures { result ≡ within_of before after }
{
    if after.width as u64 * after.height as u64 > PixelFormat::PIXEL_LIMIT
        || before.width > Iscl::SIDE_LIMIT
        || before.height > Iscl::SIDE_LIMIT
        || after.width > Iscl::SIDE_LIMIT
        || after.height > Iscl::SIDE_LIMIT
    {
        return Err(Refusal::LIMIT);
    }
    Ok(after)
}

impl Iscl {
    // The longest side that is scaled or made by scaling.
    pub const SIDE_LIMIT: u32 = 67108864;

    // The size of an input of that size. Refusals: 7 a zero term, 10 a side above 2^32 - 1, and where the size changes 4 above 2^30
    // pixels or a side before or after above 2^26.
    #[tactic(auto, unfolding(crate::specs::Scale::scale_of, crate::specs::Scale::changed, laws::specs::Out::refuse, laws::specs::Pick::pick))]
    pub fn output_size(self, width: u32, height: u32) -> Result<Size, Refusal>
        ensures { result ≡ scale_of self width height }
    {
        if self.width_num == 0
            || self.width_den == 0
            || self.height_num == 0
            || self.height_den == 0
        {
            return Err(Refusal::ZERO);
        }
        let w = scaled_side(width, self.width_num, self.width_den);
        let h = scaled_side(height, self.height_num, self.height_den);
        if w > 4294967295 || h > 4294967295 {
            return Err(Refusal::SCALE);
        }
        let before = Size { width, height };
        let after = Size {
            width: w as u32,
            height: h as u32,
        };
        if after.width != width || after.height != height {
            return within(before, after);
        }
        Ok(before)
    }
}
