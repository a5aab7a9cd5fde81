// From a value to a sample.
ghost use Rattle.std.specs.Prelude.{◌≡◌, ◌^◌, ◌<◌, ◌≤◌};
ghost use Rattle.fill.specs.Rounded.{whole_of};
ghost use Rattle.fill.specs.Fill.{full_of, full_chroma_of, studio_of};

use image::PixelFormat;

// 2 ^ n
fn power(n: u32) -> u32
    requires { n < 32 }
    ensures { result ≡ 2 ^ n }
{
    1u32 << n
}

// x to a whole number, a half away from zero, held to 0 and top. Between them x has a whole part t, and t + 1/2 is an f64
// exactly.
fn whole(x: f64, top: u16) -> u16
    ensures { result ≡ whole_of x top }
{
    if x > 0.0 {
        if x < top as f64 {
            let t = std::num::truncating_f64_to_u64(x);
            let half = (t + t + 1) as f64 * 0.5;
            if x < half { t as u16 } else { (t + 1) as u16 }
        } else {
            top
        }
    } else {
        0
    }
}

// The full range's luma, and matrix 0's samples.
#[tactic(auto, unfolding(crate::specs::Fill::full_of))]
pub fn full(x: f64, depth: u32) -> u16
    requires { depth ≤ 16 }
    ensures { result ≡ full_of x depth }
{
    let top = PixelFormat::top_at(depth);
    whole(x * top as f64, top)
}

// The full range's chroma.
#[tactic(auto, unfolding(crate::specs::Fill::full_chroma_of))]
pub fn full_chroma(x: f64, depth: u32) -> u16
    requires { (8 ≤ depth) × (depth ≤ 16) }
    ensures { result ≡ full_chroma_of x depth }
{
    let top = PixelFormat::top_at(depth);
    let middle = PixelFormat::middle_at(depth) as f64;
    whole(x * top as f64 + middle, top)
}

// The studio range: k x + o, at depth 8.
#[tactic(auto, unfolding(crate::specs::Fill::studio_of))]
pub fn studio(k: f64, o: f64, x: f64, depth: u32) -> u16
    requires { (8 ≤ depth) × (depth ≤ 16) }
    ensures { result ≡ studio_of k o x depth }
{
    let top = PixelFormat::top_at(depth);
    let step = power(depth - 8) as f64;
    whole((k * x + o) * step, top)
}
