// A sample at another depth: in proportion to the top.
ghost use Rattle.std.specs.Prelude.{◌≡◌};
ghost use Rattle.sampling.specs.Depth.{level_of};
ghost use Rattle.sampling.specs.inner.Depths.{DepthsFit};

use image::PixelFormat;

// The depth that samples have, and the one that they get.
#[derive(Clone, Copy)]
pub struct Depths {
    pub old: u32,
    pub new: u32,
    pub ghost fit: { DepthsFit old new },
}

impl Depths {
    // The sample of the new depth: v * new top / old top to the nearest whole number, at most the new top.
    pub fn level(self, v: u16) -> u16
        ensures { result ≡ level_of self.old self.new v }
    {
        if self.old == self.new {
            return v;
        }
        let old = PixelFormat::top_at(self.old) as usize;
        let new = PixelFormat::top_at(self.new) as usize;
        let level = (v as usize * new + old / 2) / old;
        level.min(new) as u16
    }
}
