// A fill colour in the samples of a picture (document 01, Fill; H.273), and the fill's alpha.
#![tactic(auto)]

ghost use Rattle.std.specs.Prelude.{◌≡◌, ◌≤◌};
ghost use Rattle.fill.specs.Fill.{nclx_of, part_of, identity_of, weighted_of, fill_of, fill_alpha_of};

mod samples;
mod weights;

use crate::samples::{full, full_chroma, studio};
use crate::weights::Weights;
use image::PixelFormat;
use laws::Refusal;

// An nclx colour description: H.273's matrix number, and whether samples have the full range.
#[derive(Clone, Copy)]
pub struct Nclx {
    pub matrix: u16,
    pub full_range: bool,
}

// A sample of each colour plane. Under matrix 0 they are green, blue and red.
#[derive(Clone, Copy)]
pub struct Ycbcr {
    pub y: u16,
    pub cb: u16,
    pub cr: u16,
}

impl Nclx {
    // A picture's description. Without nclx: matrix 6, full range.
    #[tactic(auto, unfolding(crate::specs::Fill::nclx_of))]
    pub fn of(colour: Option<Nclx>) -> Nclx
        ensures { result ≡ nclx_of colour }
    {
        colour.unwrap_or(Nclx {
            matrix: 6,
            full_range: true,
        })
    }
}

// A fill's red, green and blue of 16 bits as samples. Refusals: 6 a depth outside 8 to 16. The samples are at most top
// (proofs/TopLaws), and less than one step from H.273's figures (proofs/Bound).
#[tactic(auto, unfolding(crate::specs::Fill::fill_of, laws::specs::Out::refuse, crate::specs::Fill::ycbcr_of, laws::specs::Pick::pick))]
pub fn fill_to_ycbcr(
    red: u16,
    green: u16,
    blue: u16,
    depth: u32,
    colour: Option<Nclx>,
) -> Result<Ycbcr, Refusal>
    ensures { result ≡ fill_of red green blue depth colour }
{
    if !PixelFormat::is_depth(depth) {
        return Err(Refusal::DEPTH);
    }
    let n = Nclx::of(colour);
    let r = part(red);
    let g = part(green);
    let b = part(blue);
    if n.matrix == 0 {
        return Ok(identity(r, g, b, depth));
    }
    Ok(weighted(Weights::of(n.matrix), r, g, b, depth, n.full_range))
}

// A fill's alpha of 16 bits as a sample.
#[tactic(auto, unfolding(crate::specs::Fill::fill_alpha_of))]
pub fn fill_alpha(alpha: u16, depth: u32) -> u16
    requires { depth ≤ 16 }
    ensures { result ≡ fill_alpha_of alpha depth }
{
    let top = PixelFormat::top_at(depth) as u64;
    ((alpha as u64 * top + 32767) / 65535) as u16
}

// A colour of 16 bits as a part of 1.
fn part(v: u16) -> f64
    ensures { result ≡ part_of v }
{
    v as f64 / 65535.0
}

// Matrix 0.
#[tactic(auto, unfolding(crate::specs::Fill::identity_of))]
fn identity(r: f64, g: f64, b: f64, depth: u32) -> Ycbcr
    requires { depth ≤ 16 }
    ensures { result ≡ identity_of r g b depth }
{
    Ycbcr {
        y: full(g, depth),
        cb: full(b, depth),
        cr: full(r, depth),
    }
}

// A matrix by its weights.
#[tactic(auto, unfolding(crate::specs::Fill::weighted_of, laws::specs::Pick::pick))]
fn weighted(w: Weights, r: f64, g: f64, b: f64, depth: u32, full_range: bool) -> Ycbcr
    requires { (8 ≤ depth) × (depth ≤ 16) }
    ensures { result ≡ weighted_of w r g b depth full_range }
{
    let y = w.luma(r, g, b);
    let cb = w.cb(b, y);
    let cr = w.cr(r, y);
    if full_range {
        Ycbcr {
            y: full(y, depth),
            cb: full_chroma(cb, depth),
            cr: full_chroma(cr, depth),
        }
    } else {
        Ycbcr {
            y: studio(219.0, 16.0, y, depth),
            cb: studio(224.0, 128.0, cb, depth),
            cr: studio(224.0, 128.0, cr, depth),
        }
    }
}
