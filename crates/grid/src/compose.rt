// composite_grid: the tiles of a tray joined to one record.
ghost use Rattle.std.specs.Prelude.{◌≡◌, ◌≤◌, length};
ghost use Rattle.laws.specs.Out.{answer_of, written};
ghost use Rattle.laws.specs.Puts.{puts};
ghost use Rattle.planes.specs.Bytes.{encode, size_of};
ghost use Rattle.tiles.specs.Tiles.{canvas_form};
ghost use Rattle.grid.specs.inner.Ready.{TilesTaken};
ghost use Rattle.grid.specs.Run.{grid_on, grid_run};

use crate::paint::outline_canvas;
use cells::draw_tile;
use laws::Refusal;
use tiles::{Tiles, canvas_form, promotes, read_tiles};

// The composed picture at the start of `out`: each tile is read once, in its order in the tray.
pub fn draw_grid(out: &mut [u8], tray: &[u8], t: Tiles)
    requires { TilesTaken tray.now t × (size_of (canvas_form t.desc t.tile t.alpha) ≤ length out.old) }
    ensures { out.new ≡ puts out.old 0 (encode (grid_on tray.now t)) }
{
    let g = t.desc;
    let canvas = canvas_form(g, t.tile, t.alpha);
    let promoted = promotes(g, t.tile);
    let columns = g.columns;
    let count = g.rows * columns;
    let to = planes::tight(canvas);
    outline_canvas(out, canvas);
    let mut next = t.first;
    for i in 0..count {
        let Ok(f) = records::read_record(tray, next) else {
            return;
        };
        draw_tile(out, to, tray, f, promoted, i % columns, i / columns);
        next = f.end;
    }
}

// A grid's tiles joined to a tight record. Refusals: 5 tray count unreadable; the body's; 11; the records'; 12; 13 and 14; 17.
pub fn composite_grid(body: &[u8], tray: &[u8], out: &mut [u8]) -> Result<usize, Refusal>
    ensures { (result ≡ answer_of (grid_run body.now tray.now (length out.old)))
        × (out.new ≡ written (grid_run body.now tray.now (length out.old)) out.old) }
{
    let t = read_tiles(body, tray)?;
    let size = planes::record_size(canvas_form(t.desc, t.tile, t.alpha));
    if out.len() < size {
        return Err(Refusal::ROOM);
    }
    draw_grid(out, tray, t);
    Ok(size)
}
