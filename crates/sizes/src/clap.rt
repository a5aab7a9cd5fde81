// The clean aperture (ISO/IEC 14496-12, 12.1.4), resolved to a rectangle of whole pixels and the margins about it (document 02, A1).
ghost use Rattle.std.specs.Prelude.{◌≡◌, ◌<◌};
ghost use Rattle.std.proofs.Math.IntN.{sub_ℕ};
ghost use Rattle.sizes.specs.Aperture.{edge_of, axis_of, resolve_of};
ghost use Rattle.sizes.specs.Margins.{fits_axis, fits_in};

use laws::Refusal;

// An offset's numerator is the 32-bit pattern of a signed number.
#[derive(Clone, Copy)]
pub struct Clap {
    pub width_n: u32,
    pub width_d: u32,
    pub height_n: u32,
    pub height_d: u32,
    pub horiz_off_n: u32,
    pub horiz_off_d: u32,
    pub vert_off_n: u32,
    pub vert_off_d: u32,
}

#[derive(Clone, Copy)]
pub struct CropRect {
    pub x: u32,
    pub y: u32,
    pub width: u32,
    pub height: u32,
}

// What a crop takes from a picture on each side, in pixels.
#[derive(Clone, Copy)]
pub struct Margins {
    pub left: u32,
    pub top: u32,
    pub right: u32,
    pub bottom: u32,
}

// A rectangle of a picture and the margins about it.
#[derive(Clone, Copy)]
pub struct Crop {
    pub rect: CropRect,
    pub margins: Margins,
}

// A part of one axis, and how many pixels lie beyond it.
#[derive(Clone, Copy)]
struct AxisPart {
    edge: u32,
    size: u32,
    beyond: u32,
}

// The edge (ahead - behind) / den, which is whole and from 0 to gap.
fn edge(ahead: u64, behind: u64, den: u64, gap: u32, size: u32) -> Result<AxisPart, Refusal>
    requires { 0 < den }
    ensures { result ≡ edge_of (sub_ℕ ahead behind) den gap size }
{
    if ahead < behind {
        if (behind - ahead) % den != 0 {
            return Err(Refusal::FRACTION);
        }
        return Err(Refusal::OUTSIDE);
    }
    let num = ahead - behind;
    if num % den != 0 {
        return Err(Refusal::FRACTION);
    }
    let at = num / den;
    if at > gap as u64 {
        return Err(Refusal::OUTSIDE);
    }
    let edge = at as u32;
    let beyond = gap - edge;
    Ok(AxisPart { edge, size, beyond })
}

// One axis: the size n / d, about a centre that lies off_n / off_d beyond the input's.
#[tactic(auto, unfolding(crate::specs::Aperture::axis_of, laws::specs::Out::refuse))]
fn along(n: u32, d: u32, off_n: u32, off_d: u32, input: u32) -> Result<AxisPart, Refusal>
    ensures { result ≡ axis_of n d off_n off_d input }
{
    if d == 0 {
        return Err(Refusal::ZERO);
    }
    if off_d == 0 {
        return Err(Refusal::ZERO);
    }
    if n % d != 0 {
        return Err(Refusal::FRACTION);
    }
    let size = n / d;
    if size == 0 {
        return Err(Refusal::OUTSIDE);
    }
    if size > input {
        return Err(Refusal::OUTSIDE);
    }
    let gap = input - size;
    let off = numbers::signed(off_n, 4294967296);
    let ahead = gap as u64 * off_d as u64 + 2 * off.ahead as u64;
    edge(ahead, 2 * off.behind as u64, 2 * off_d as u64, gap, size)
}

impl Clap {
    // The rectangle in an input of that size, with its margins. Refusals, the width axis wholly before the height: 7 a zero denominator, 8 a size that
    // is not whole, 9 a size 0 or above the input's, 8 an edge that is not whole, 9 an edge outside.
    #[tactic(auto, unfolding(crate::specs::Aperture::resolve_of, laws::specs::Out::and_then))]
    pub fn resolve(self, width: u32, height: u32) -> Result<Crop, Refusal>
        ensures { result ≡ resolve_of self width height }
    {
        let a = along(
            self.width_n,
            self.width_d,
            self.horiz_off_n,
            self.horiz_off_d,
            width,
        )?;
        let b = along(
            self.height_n,
            self.height_d,
            self.vert_off_n,
            self.vert_off_d,
            height,
        )?;
        Ok(Crop {
            rect: CropRect {
                x: a.edge,
                y: b.edge,
                width: a.size,
                height: b.size,
            },
            margins: Margins {
                left: a.edge,
                top: b.edge,
                right: a.beyond,
                bottom: b.beyond,
            },
        })
    }
}

// Whether a part of an axis has some pixels, begins where the margin before it ends, and with both margins makes up the axis.
#[tactic(auto, unfolding(crate::specs::Margins::fits_axis))]
fn fits_axis(edge: u32, size: u32, before: u32, beyond: u32, input: u32) -> bool
    ensures { result ≡ fits_axis edge size before beyond input }
{
    size != 0 && before == edge && before as u64 + size as u64 + beyond as u64 == input as u64
}

impl Crop {
    // Whether rectangle and margins are those of a crop of a picture of that size.
    #[tactic(auto, unfolding(crate::specs::Margins::fits_in))]
    pub fn fits(self, width: u32, height: u32) -> bool
        ensures { result ≡ fits_in self width height }
    {
        let r = self.rect;
        let m = self.margins;
        fits_axis(r.x, r.width, m.left, m.right, width)
            && fits_axis(r.y, r.height, m.top, m.bottom, height)
    }
}
