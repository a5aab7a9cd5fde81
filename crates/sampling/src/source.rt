// A plane whose samples lie in its bytes, and the plane that is made of it.
ghost use Rattle.std.specs.Prelude.{ℕ, ◌<◌, get_or};
ghost use Rattle.sampling.specs.inner.Redraw.{RasterFits};

use crate::raster::Raster;

#[derive(Clone, Copy)]
pub struct Source<'a> {
    pub plane: &'a [u8],
    pub raster: Raster,
    pub ghost bytes: { (i : ℕ) → get_or plane.now i 0 < 256 },
    pub ghost fits: { RasterFits plane.now raster },
}
