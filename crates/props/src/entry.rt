// A chain's entries (document 01, "What is handed in"): kind, essential, fields.
ghost use Rattle.std.specs.Prelude.{◌≡◌};
ghost use Rattle.props.specs.Entry.{fraction_at, clap_at, irot_at, imir_at, iscl_at, byte_at, property_at, entry_at, kind_of};

use laws::Refusal;
use sizes::{Clap, Iscl};

// Image rotation (ISO/IEC 23008-12, 6.5.10): angle mod 4 quarter turns anticlockwise.
#[derive(Clone, Copy)]
pub struct Irot {
    pub angle: u8,
}

// Image mirroring (ISO/IEC 23008-12, 6.5.12): axis mod 2, of which 0 exchanges top and bottom, 1 left and right.
#[derive(Clone, Copy)]
pub struct Imir {
    pub axis: u8,
}

// One of five properties; Other is any that is skipped.
#[derive(Clone, Copy)]
pub enum Property {
    Other,
    Clap(Clap),
    Irot(Irot),
    Imir(Imir),
    Iscl(Iscl),
}

#[derive(Clone, Copy)]
pub struct PropertyEntry {
    pub essential: bool,
    pub property: Property,
}

// A number n / d as it is written.
#[derive(Clone, Copy)]
struct Fraction {
    num: u32,
    den: u32,
}

// Each reader gives what stands at a place, and the place past it.
#[tactic(auto, unfolding(crate::specs::Entry::fraction_at, numbers::specs::Number::on_number))]
fn read_fraction(s: &[u8], at: usize) -> Result<(Fraction, usize), Refusal>
    ensures { result ≡ fraction_at s.now at }
{
    let (num, a) = numbers::read_number(s, at)?;
    let (den, b) = numbers::read_number(s, a)?;
    Ok((Fraction { num, den }, b))
}

// A number up to 255.
#[tactic(auto, unfolding(crate::specs::Entry::byte_at, numbers::specs::Number::on_number, laws::specs::Out::refuse))]
fn read_byte(s: &[u8], at: usize) -> Result<(u8, usize), Refusal>
    ensures { result ≡ byte_at s.now at }
{
    let (value, next) = numbers::read_number(s, at)?;
    if value > 255 {
        return Err(Refusal::MALFORMED);
    }
    Ok((value as u8, next))
}

// Width, height, horizontal offset, vertical offset.
#[tactic(auto, unfolding(crate::specs::Entry::clap_at, laws::specs::Out::and_then))]
fn read_clap(s: &[u8], at: usize) -> Result<(Property, usize), Refusal>
    ensures { result ≡ clap_at s.now at }
{
    let (w, a) = read_fraction(s, at)?;
    let (h, b) = read_fraction(s, a)?;
    let (x, c) = read_fraction(s, b)?;
    let (y, next) = read_fraction(s, c)?;
    let clap = Clap {
        width_n: w.num,
        width_d: w.den,
        height_n: h.num,
        height_d: h.den,
        horiz_off_n: x.num,
        horiz_off_d: x.den,
        vert_off_n: y.num,
        vert_off_d: y.den,
    };
    Ok((Property::Clap(clap), next))
}

// Width, height, of 16 bits each.
#[tactic(auto, unfolding(crate::specs::Entry::iscl_at, laws::specs::Out::and_then, laws::specs::Out::refuse))]
fn read_iscl(s: &[u8], at: usize) -> Result<(Property, usize), Refusal>
    ensures { result ≡ iscl_at s.now at }
{
    let (w, a) = read_fraction(s, at)?;
    let (h, next) = read_fraction(s, a)?;
    if w.num > 65535 || w.den > 65535 || h.num > 65535 || h.den > 65535 {
        return Err(Refusal::MALFORMED);
    }
    let iscl = Iscl {
        width_num: w.num as u16,
        width_den: w.den as u16,
        height_num: h.num as u16,
        height_den: h.den as u16,
    };
    Ok((Property::Iscl(iscl), next))
}

#[tactic(auto, unfolding(crate::specs::Entry::irot_at, laws::specs::Out::and_then))]
fn read_irot(s: &[u8], at: usize) -> Result<(Property, usize), Refusal>
    ensures { result ≡ irot_at s.now at }
{
    let (angle, next) = read_byte(s, at)?;
    Ok((Property::Irot(Irot { angle }), next))
}

#[tactic(auto, unfolding(crate::specs::Entry::imir_at, laws::specs::Out::and_then))]
fn read_imir(s: &[u8], at: usize) -> Result<(Property, usize), Refusal>
    ensures { result ≡ imir_at s.now at }
{
    let (axis, next) = read_byte(s, at)?;
    Ok((Property::Imir(Imir { axis }), next))
}

// The fields of a kind from 0 to 4.
#[tactic(auto, unfolding(crate::specs::Entry::property_at, laws::specs::Pick::pick))]
fn read_property(s: &[u8], at: usize, kind: u32) -> Result<(Property, usize), Refusal>
    ensures { result ≡ property_at s.now at kind }
{
    match kind {
        0 => Ok((Property::Other, at)),
        1 => read_clap(s, at),
        2 => read_irot(s, at),
        3 => read_imir(s, at),
        _ => read_iscl(s, at),
    }
}

// The entry at a place, and the place past it. Refusals: 5 a malformed number, a kind above 4, an essential above 1, an angle or an axis
// above 255, a field of an iscl above 65,535.
#[tactic(auto, unfolding(crate::specs::Entry::entry_at, numbers::specs::Number::on_number, laws::specs::Out::and_then, laws::specs::Out::refuse))]
pub fn read_entry(s: &[u8], at: usize) -> Result<(PropertyEntry, usize), Refusal>
    ensures { result ≡ entry_at s.now at }
{
    let (kind, a) = numbers::read_number(s, at)?;
    if kind > 4 {
        return Err(Refusal::MALFORMED);
    }
    let (essential, b) = numbers::read_number(s, a)?;
    if essential > 1 {
        return Err(Refusal::MALFORMED);
    }
    let (property, next) = read_property(s, b, kind)?;
    let entry = PropertyEntry {
        essential: essential == 1,
        property,
    };
    Ok((entry, next))
}

impl Property {
    // Its kind in a chain.
    #[tactic(auto, unfolding(crate::specs::Entry::kind_of))]
    pub fn kind(self) -> u32
        ensures { result ≡ kind_of self }
    {
        match self {
            Property::Other => 0,
            Property::Clap(_) => 1,
            Property::Irot(_) => 2,
            Property::Imir(_) => 3,
            Property::Iscl(_) => 4,
        }
    }
}
