// The mean over a footprint, in 256ths of a sample along each axis.
ghost use Rattle.std.specs.Prelude.{◌≡◌, ◌-◌, ◌*◌, ◌<◌, ◌≤◌, ◌^◌};
ghost use Rattle.planes.specs.Bytes.{sample_in};
ghost use Rattle.sampling.specs.Area.{foot_of, first_of, past_of, weight_of, weighed, area_mean};
ghost use Rattle.sampling.specs.inner.Sums.{AreaFits, RowSumFits};

use crate::raster::Axis;

// A part of an axis, in 256ths of a sample.
#[derive(Clone, Copy)]
pub struct Foot {
    pub start: usize,
    pub end: usize,
}

// The footprint of sample k: its share of the axis where there are to be no more samples than there were; else the width of
// one sample around its centre, kept inside the axis.
pub fn footprint(a: Axis, k: usize) -> Foot
    requires { (k < a.to) × (1 ≤ a.from) × (a.to ≤ 2 ^ 26) × (a.from ≤ 2 ^ 26) }
    ensures { result ≡ foot_of a.from a.to k }
{
    if a.to <= a.from {
        return Foot {
            start: k * a.from * 256 / a.to,
            end: (k + 1) * a.from * 256 / a.to,
        };
    }
    let centre = (2 * k + 1) * a.from * 256 / (2 * a.to);
    let start = centre.saturating_sub(128).min(256 * (a.from - 1));
    Foot {
        start,
        end: start + 256,
    }
}

// How much of a footprint lies in sample j.
pub fn weight(f: Foot, j: usize) -> usize
    requires { (f.start < f.end) × (f.end ≤ 2 ^ 40) × (first_of f ≤ j) × (j < past_of f) }
    ensures { (result ≡ weight_of f j) × (result ≤ 256) }
{
    f.end.min(256 * j + 256) - f.start.max(256 * j)
}

// The samples of row y under a footprint, each times its weight.
fn row_sum(plane: &[u8], bytes: usize, stride: usize, f: Foot, y: usize) -> usize
    requires { RowSumFits plane.now bytes stride f y }
    ensures { (result ≡ weighed f (λ x. sample_in plane.now bytes stride x y)) × (result ≤ (f.end - f.start) * 65535) }
{
    let past = (f.end + 255) / 256;
    let mut sum = 0;
    for j in f.start / 256..past {
        sum += planes::sample(plane, bytes, stride, j, y) as usize * weight(f, j);
    }
    sum
}

// The mean of the samples under two footprints, to the nearest whole number, a half up.
pub fn area_sample(plane: &[u8], bytes: usize, stride: usize, across: Foot, down: Foot) -> u16
    requires { AreaFits plane.now bytes stride across down }
    ensures { result ≡ area_mean across down (λ x y. sample_in plane.now bytes stride x y) }
{
    let past = (down.end + 255) / 256;
    let mut sum = 0;
    for j in down.start / 256..past {
        sum += row_sum(plane, bytes, stride, across, j) * weight(down, j);
    }
    let whole = (across.end - across.start) * (down.end - down.start);
    ((sum + whole / 2) / whole) as u16
}
