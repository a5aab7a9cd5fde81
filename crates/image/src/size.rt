// The size of a picture.
ghost use Rattle.std.specs.Prelude.{◌≡◌};
ghost use Rattle.image.specs.Format.{judged_size};

use crate::format::PixelFormat;
use laws::Refusal;

#[derive(Clone, Copy)]
pub struct Size {
    pub width: u32,
    pub height: u32,
}

impl Size {
    // The size of those sides. Refusals: 3 a side 0, 4 above 2^30 pixels.
    #[tactic(auto, unfolding(crate::specs::Format::judged_size, laws::specs::Out::refuse))]
    pub fn judge(width: u32, height: u32) -> Result<Size, Refusal>
        ensures { result ≡ judged_size width height }
    {
        if width == 0 || height == 0 {
            return Err(Refusal::EMPTY);
        }
        if width as u64 * height as u64 > PixelFormat::PIXEL_LIMIT {
            return Err(Refusal::LIMIT);
        }
        Ok(Size { width, height })
    }
}
