// What a place of the canvas names: the tile or the topmost input that covers it, and the spot there.
ghost use Rattle.std.specs.Prelude.{true, ◌≡◌};
ghost use Rattle.laws.specs.Pick.{pick};
ghost use Rattle.derived.specs.inner.Sound.{OverlaySound};
ghost use Rattle.records.specs.inner.Frames.{frames_from};
ghost use Rattle.blend.specs.Overlay.{covers, spot_at};
ghost use Rattle.point.specs.Point.{grid_names, lies_over, spot_under, topmost_named};
ghost use Rattle.point.specs.inner.Look.{Tiled, place_in};
ghost use Rattle.point.specs.declared.Named.{Named};

use crate::{Named, Spot};
use derived::{OverlayDescriptor, Placement};
use numbers::Offset;
use records::Frame;
use sight::CanvasPlace;
use tiles::Tiles;

// The tile that covers a place of the canvas.
#[tactic(auto, unfolding(crate::specs::Point::grid_names))]
pub(crate) fn name_tile(t: Tiles, l: CanvasPlace) -> Named
    requires { Tiled t l }
    ensures { result ≡ grid_names t (place_in l) }
{
    let tile = t.tile;
    let g = t.desc;
    Named::Spot(Spot {
        input: l.y / tile.height * g.columns + l.x / tile.width,
        x: l.x % tile.width,
        y: l.y % tile.height,
    })
}

// Whether an input of a side covers a place along an axis.
#[tactic(auto, unfolding(blend::specs::Overlay::covers))]
fn reaches(side: u32, o: Offset, x: u32) -> bool
    ensures { result ≡ covers side o x }
{
    let at = x as u64 + o.behind as u64;
    let ahead = o.ahead as u64;
    ahead <= at && at < ahead + side as u64
}

// The spot of an input of a side that covers the place.
#[tactic(auto, unfolding(blend::specs::Overlay::covers, blend::specs::Overlay::spot_at))]
fn spot_at(side: u32, o: Offset, x: u32) -> u32
    requires { covers side o x ≡ true }
    ensures { result ≡ spot_at o x }
{
    (x as u64 + o.behind as u64 - o.ahead as u64) as u32
}

// Input i where it covers the place, else what was found below it.
#[tactic(auto, unfolding(crate::specs::Point::lies_over, crate::specs::Point::spot_under, laws::specs::Pick::pick))]
fn name_input(i: u32, fr: Frame, o: Placement, l: CanvasPlace, found: Named) -> Named
    ensures { result ≡ pick (lies_over fr o (place_in l)) (spot_under i o (place_in l)) found }
{
    let form = fr.form;
    if reaches(form.width, o.horizontal, l.x) && reaches(form.height, o.vertical, l.y) {
        Named::Spot(Spot {
            input: i,
            x: spot_at(form.width, o.horizontal, l.x),
            y: spot_at(form.height, o.vertical, l.y),
        })
    } else {
        found
    }
}

// The topmost of the inputs that cover a place, or fill: one pass over the tray's records, of which the last that covers it is on top.
pub(crate) fn name_topmost(
    body: &[u8],
    tray: &[u8],
    d: OverlayDescriptor,
    first: usize,
    l: CanvasPlace,
) -> Named
    requires { OverlaySound body.now d }
    ensures { result ≡ topmost_named body.now d (place_in l) 0 Named.Fill (frames_from d.count tray.now first) }
{
    let mut at = first;
    let mut found = Named::Fill;
    for i in 0..d.count {
        let Ok(fr) = records::read_record(tray, at) else {
            return found;
        };
        found = name_input(i, fr, d.offset(body, i), l, found);
        at = fr.end;
    }
    found
}
