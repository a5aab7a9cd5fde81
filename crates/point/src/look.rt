// Point calls up to the place: what the chain leaves of the composed picture, and what the place is looked up in.
ghost use Rattle.std.specs.Prelude.{◌≡◌};
ghost use Rattle.derived.specs.inner.Sound.{OverlaySound};
ghost use Rattle.sight.specs.inner.Bounded.{Bounded};
ghost use Rattle.point.specs.inner.Look.{GridHeld, grid_held, grid_look_out, grid_looked, overlay_held, overlay_look_out, overlay_looked};
ghost use Rattle.point.specs.Point.{grid_look, overlay_look, point_from};

use crate::Point;
use crate::names::{name_tile, name_topmost};
use derived::OverlayDescriptor;
use inputs::Sought;
use laws::{Item, Refusal};
use sight::Sight;
use tiles::Tiles;

// Everything before the place of a grid: the chain's rectangle and turn, and the tiles.
#[derive(Clone, Copy)]
pub struct GridLook {
    pub sight: Sight,
    pub tiles: Tiles,
}

// Everything before the place of an overlay: the chain's rectangle and turn, the descriptor, and where the first record stands.
#[derive(Clone, Copy)]
pub struct OverlayLook {
    pub sight: Sight,
    pub descriptor: OverlayDescriptor,
    pub first: usize,
}

impl GridLook {
    // What a final place names. Refusal: 18 a place outside.
    pub(crate) fn point(self, column: u32, row: u32) -> Result<Point, Refusal>
        requires { GridHeld self }
        ensures { result ≡ point_from (grid_looked self) column row }
    {
        let sight = self.sight;
        let l = sight.place(column, row)?;
        let named = name_tile(self.tiles, l);
        Ok(Point { named, sight })
    }
}

impl OverlayLook {
    // The same of the overlay of a body and a tray.
    pub(crate) fn point(
        self,
        body: &[u8],
        tray: &[u8],
        column: u32,
        row: u32,
    ) -> Result<Point, Refusal>
        requires { OverlaySound body.now self.descriptor × Bounded self.sight.area }
        ensures { result ≡ point_from (overlay_looked body.now tray.now self) column row }
    {
        let sight = self.sight;
        let l = sight.place(column, row)?;
        let named = name_topmost(body, tray, self.descriptor, self.first, l);
        Ok(Point { named, sight })
    }
}

// A grid's point call up to the place. Refusals: 5 tray count unreadable; the chain's form; the body's and the tiles'; the entries' in
// turn, 18 an applied iscl.
pub fn look_grid(
    body: &[u8],
    tray: &[u8],
    chain: &[u8],
    essential_only: bool,
) -> Result<GridLook, Refusal>
    ensures { (grid_look_out result ≡ grid_look body.now tray.now chain.now essential_only) × grid_held result }
{
    numbers::read_number(tray, 0)?;
    let c = props::check_chain(chain, 0)?;
    let tiles = tiles::read_tiles(body, tray)?;
    let g = tiles.desc;
    let sight = sight::reduce_judged(chain, c, essential_only, g.output_width, g.output_height)?;
    Ok(GridLook { sight, tiles })
}

// An overlay's point call up to the place. Refusals: 5 tray count unreadable; the chain's form; the body's and the inputs'; 18 an input
// with alpha; the entries' in turn, 18 an applied iscl.
pub fn look_overlay(
    body: &[u8],
    tray: &[u8],
    chain: &[u8],
    essential_only: bool,
    premultiplied: &[u8],
) -> Result<OverlayLook, Refusal>
    ensures { (overlay_look_out body.now tray.now result ≡ overlay_look body.now tray.now chain.now essential_only premultiplied.now)
        × overlay_held body.now result }
{
    let (count, first) = numbers::read_number(tray, 0)?;
    let c = props::check_chain(chain, 0)?;
    let q = inputs::read_inputs(body, tray, premultiplied, count, first)?;
    if q.alpha {
        let seen = inputs::first_sought(tray, first, count, Sought::Alpha);
        return Err(Refusal::POINT.about(Item::Record(seen as u64)));
    }
    let descriptor = q.descriptor;
    let sight = sight::reduce_judged(
        chain,
        c,
        essential_only,
        descriptor.output_width,
        descriptor.output_height,
    )?;
    Ok(OverlayLook {
        sight,
        descriptor,
        first,
    })
}
