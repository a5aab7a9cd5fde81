// The point calls (document 01, "Point call"): which input and which spot of it a final place shows.
#![tactic(auto)]

mod look;
mod names;

ghost use Rattle.std.specs.Prelude.{◌≡◌};
ghost use Rattle.point.specs.Point.{grid_point, overlay_point};

pub use crate::look::{GridLook, OverlayLook, look_grid, look_overlay};
use laws::Refusal;
use sight::Sight;

// A spot of an input: its number, a column and a row, from 0.
#[derive(Clone, Copy)]
pub struct Spot {
    pub input: u32,
    pub x: u32,
    pub y: u32,
}

// What a final place names.
#[derive(Clone, Copy)]
pub enum Named {
    Fill,
    Spot(Spot),
}

// The same, and the chain's rectangle in the composed picture and its turn.
#[derive(Clone, Copy)]
pub struct Point {
    pub named: Named,
    pub sight: Sight,
}

// The tile and the spot of it that a final place of a grid scene shows. Refusals: 5 tray count unreadable; the chain's form; the
// body's and the tiles'; the entries' in turn, 18 an applied iscl; 18 a place outside.
#[tactic(auto, unfolding(crate::specs::Point::grid_point, crate::specs::inner::Look::grid_held, laws::specs::Out::and_then))]
pub fn grid_point(
    body: &[u8],
    tray: &[u8],
    chain: &[u8],
    essential_only: bool,
    column: u32,
    row: u32,
) -> Result<Point, Refusal>
    ensures { result ≡ grid_point body.now tray.now chain.now essential_only column row }
{
    let k = look_grid(body, tray, chain, essential_only)?;
    k.point(column, row)
}

// The topmost input and the spot of it that a final place of an overlay scene shows, or fill. Refusals: 5 tray count unreadable; the
// chain's form; the body's and the inputs'; 18 an input with alpha; the entries' in turn, 18 an applied iscl; 18 a place outside.
#[tactic(auto, unfolding(crate::specs::Point::overlay_point, crate::specs::inner::Look::overlay_held, laws::specs::Out::and_then))]
pub fn overlay_point(
    body: &[u8],
    tray: &[u8],
    chain: &[u8],
    essential_only: bool,
    premultiplied: &[u8],
    column: u32,
    row: u32,
) -> Result<Point, Refusal>
    ensures { result ≡ overlay_point body.now tray.now chain.now essential_only premultiplied.now column row }
{
    let k = look_overlay(body, tray, chain, essential_only, premultiplied)?;
    k.point(body, tray, column, row)
}
