// What a stripe holds in the end, as samples: the colour again by its opacity, and the fill where that is 0 (document 01, Overlay).
ghost use Rattle.std.specs.Prelude.{Some, ℕ, ◌≡◌, ◌+◌, ◌*◌, ◌≤◌, length, get_or};
ghost use Rattle.laws.specs.Puts.{puts};
ghost use Rattle.planes.specs.Bytes.{samples_of};
ghost use Rattle.blend.specs.Overlay.{unpremultiply, final_sample};
ghost use Rattle.blend.specs.inner.Row.{DepthTop, bytes_at};
ghost use Rattle.blend.specs.inner.Stripe.{Held};

use crate::row::by_top;
use image::{Part, PixelFormat};

// The colour again, by its opacity.
#[tactic(auto, unfolding(crate::specs::Overlay::unpremultiply, laws::specs::Pick::pick))]
fn unpremultiply(top: u16, fill: u16, v: u32, a: u32) -> u16
    ensures { result ≡ unpremultiply top fill v a }
{
    if a == 0 {
        return fill;
    }
    let v = v as usize;
    let a = a as usize;
    ((v + a / 2) / a).min(top as usize) as u16
}

#[tactic(auto, unfolding(crate::specs::Overlay::final_sample))]
fn final_sample(top: u16, part: Part, fill: u16, v: u32, a: u32) -> u16
    ensures { result ≡ final_sample top part fill v a }
{
    match part {
        Part::Luma | Part::Cb | Part::Cr => unpremultiply(top, fill, v, a),
        Part::Alpha => a.min(top as u32) as u16,
    }
}

// Writes a run of samples that were laid, and returns the place past them.
pub fn write_run(
    out: &mut [u8],
    at: usize,
    bytes: usize,
    colour: &[u32],
    opacity: &[u32],
    n: usize,
    top: u16,
    part: Part,
    fill: u16,
) -> usize
    requires { (1 ≤ bytes) × (bytes ≤ 2) × (n ≤ length colour.now) × (n ≤ length opacity.now) × (at + n * bytes ≤ length out.old) }
    ensures { (result ≡ at + n * bytes)
        × (out.new ≡ puts out.old at (samples_of bytes (λ k. final_sample top part fill (get_or colour.now k 0) (get_or opacity.now k 0)) n)) }
{
    let mut i = at;
    for k in 0..n {
        let v = final_sample(top, part, fill, colour[k], opacity[k]);
        i = planes::put_sample(out, i, bytes, v);
    }
    i
}

// ---- an opaque canvas, which no input makes less so

// A colour sample of so many bytes, of a depth d: v over top, rounded.
fn solid_sample<const BYTES: usize>(v: u32, d: u32, top: u16) -> u16
    requires { DepthTop d top × (8 ≤ d) × (BYTES ≡ bytes_at d) × (v ≤ top * top) }
    ensures { result ≡ unpremultiply top 0 v top }
{
    if BYTES == 1 {
        ((v + 127) / 255) as u16
    } else {
        by_top(v as usize + (top / 2) as usize, d) as u16
    }
}

// The samples of a colour plane, of so many bytes, of a depth d.
fn solid_samples<const BYTES: usize>(
    out: &mut [u8],
    at: usize,
    colour: &[u32],
    n: usize,
    d: u32,
    top: u16,
) -> usize
    requires { (n ≤ length colour.now) × (at + n * BYTES ≤ length out.old) × DepthTop d top × (8 ≤ d) × (BYTES ≡ bytes_at d) × Held top colour.now n }
    ensures { (result ≡ at + n * BYTES)
        × (out.new ≡ puts out.old at (samples_of BYTES (λ k. unpremultiply top 0 (get_or colour.now k 0) top) n)) }
{
    let mut i = at;
    for k in 0..n {
        i = planes::put_sample(out, i, BYTES, solid_sample::<BYTES>(colour[k], d, top));
    }
    i
}

// The same at any top.
fn solid_each(out: &mut [u8], at: usize, bytes: usize, colour: &[u32], n: usize, top: u16) -> usize
    requires { (1 ≤ bytes) × (bytes ≤ 2) × (n ≤ length colour.now) × (at + n * bytes ≤ length out.old) }
    ensures { (result ≡ at + n * bytes)
        × (out.new ≡ puts out.old at (samples_of bytes (λ k. unpremultiply top 0 (get_or colour.now k 0) top) n)) }
{
    let mut i = at;
    for k in 0..n {
        i = planes::put_sample(out, i, bytes, unpremultiply(top, 0, colour[k], top as u32));
    }
    i
}

// The depth that has the top.
fn depth_of(top: u16) -> Option<u32>
    ensures { (d : ℕ) → result ≡ Some d → DepthTop d top × (8 ≤ d) }
{
    for d in 8..17 {
        if PixelFormat::top_at(d) == top {
            return Some(d);
        }
    }
    None
}

// Writes a run of samples of a colour plane of an opaque canvas, and returns the place past them.
pub fn write_solid(
    out: &mut [u8],
    at: usize,
    bytes: usize,
    colour: &[u32],
    n: usize,
    top: u16,
) -> usize
    requires { (1 ≤ bytes) × (bytes ≤ 2) × (n ≤ length colour.now) × (at + n * bytes ≤ length out.old) × Held top colour.now n }
    ensures { (result ≡ at + n * bytes)
        × (out.new ≡ puts out.old at (samples_of bytes (λ k. unpremultiply top 0 (get_or colour.now k 0) top) n)) }
{
    if let Some(d) = depth_of(top) {
        if bytes == 1 && d == 8 {
            return solid_samples::<1>(out, at, colour, n, d, top);
        }
        if bytes == 2 && d > 8 {
            return solid_samples::<2>(out, at, colour, n, d, top);
        }
    }
    solid_each(out, at, bytes, colour, n, top)
}
