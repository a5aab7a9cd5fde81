// The nearest sample at or before a place.
ghost use Rattle.std.specs.Prelude.{◌≡◌, ◌<◌, ◌≤◌, ◌^◌};
ghost use Rattle.sampling.specs.Nearest.{near_place};

use crate::raster::Axis;

// Which of the samples that there were stands for sample k.
pub fn nearest_place(a: Axis, k: usize) -> usize
    requires { (1 ≤ a.to) × (k < a.to) × (a.to ≤ 2 ^ 30) × (a.from ≤ 2 ^ 30) }
    ensures { result ≡ near_place a.from a.to k }
{
    if a.from == a.to {
        return k;
    }
    k * a.from / a.to
}
