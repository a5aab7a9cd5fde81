// A tile's samples stored in its cell of a canvas, row by row.
ghost use Rattle.std.specs.Prelude.{◌≡◌, true, ◌<◌, ◌^◌, length};
ghost use Rattle.image.specs.Format.{bytes_of, has_part};
ghost use Rattle.planes.specs.Bytes.{decode, size_of, tight_at};
ghost use Rattle.image.specs.Sound.{FormSound};
ghost use Rattle.cells.specs.Cell.{visible_of, cell_of, store_part, store_tile, tile_form, tile_pic};
ghost use Rattle.cells.specs.inner.Rows.{FitsCanvas};

use image::{Form, Part};
use paste::Source;
use records::Frame;

// Along one axis: how many samples of a tile show in the cell of an index.
#[tactic(auto, unfolding(crate::specs::Cell::visible_of, laws::specs::Pick::pick))]
fn visible(canvas: usize, tile: usize, i: u32) -> usize
    requires { tile < 2 ^ 32 }
    ensures { result ≡ visible_of canvas tile i }
{
    tile.min(canvas.saturating_sub(i as usize * tile))
}

// The form of a tile, promoted to 4:4:4 or as it is.
#[tactic(auto, unfolding(crate::specs::Cell::tile_form, laws::specs::Pick::pick))]
pub fn tile_form(promoted: bool, m: Form) -> Form
    ensures { result ≡ tile_form promoted m }
{
    if promoted { m.as_444() } else { m }
}

// Where the samples of a part of a tile go in the canvas's record, and how many of them show. A cell that lies beyond the canvas
// has none.
#[derive(Clone, Copy)]
pub struct Cell {
    pub at: usize,
    pub stride: usize,
    pub across: usize,
    pub down: usize,
}

pub fn cell_of(to: Frame, tile: Form, column: u32, row: u32, part: Part) -> Cell
    requires { (to ≡ tight_at to.form 0) × FormSound to.form × FormSound tile × (has_part to.form.format part ≡ true) × (bytes_of tile.format ≡ bytes_of to.form.format) × (size_of to.form < 2 ^ 64) }
    ensures { result ≡ cell_of to.form tile column row part }
{
    let t = tile.format;
    let canvas = to.form;
    let c = canvas.format;
    let wide = t.columns(tile.width, part);
    let high = t.rows(tile.height, part);
    let across = visible(c.columns(canvas.width, part), wide, column);
    let down = visible(c.rows(canvas.height, part), high, row);
    if across == 0 || down == 0 {
        return Cell {
            at: 0,
            stride: 0,
            across: 0,
            down: 0,
        };
    }
    let plane = to.plane(part);
    let stride = plane.stride;
    let above = row as usize * high * stride;
    let before = column as usize * (wide * t.bytes_per_sample());
    Cell {
        at: plane.start + (above + before),
        stride,
        across,
        down,
    }
}

// One part of a tile in its cell, if the tile has it.
fn draw_part(
    out: &mut [u8],
    to: Frame,
    s: &[u8],
    fr: Frame,
    promoted: bool,
    column: u32,
    row: u32,
    part: Part,
)
    requires { (to ≡ tight_at to.form 0) × FitsCanvas s.now fr to.form promoted (length out.old) }
    ensures { out.new ≡ store_part to.form (tile_pic promoted (decode s.now fr)) column row part out.old }
{
    let m = fr.form;
    let f = m.format;
    if f.has(part) {
        let cell = cell_of(to, tile_form(promoted, m), column, row, part);
        let down = cell.down;
        if down == 0 {
            return;
        }
        let from = fr.plane(part);
        let half_across = promoted && f.half_width(part);
        let half_down = promoted && f.half_height(part);
        let data = planes::plane_data(s, from);
        let source = Source {
            bytes: f.bytes_per_sample(),
            stride: from.stride,
            half_across,
            half_down,
            x: 0,
            y: 0,
        };
        paste::store_rows(out, cell.at, cell.stride, cell.across, down, data, source);
    }
}

// A tile in its cell. A part that it has not is left as it is there.
pub fn draw_tile(
    out: &mut [u8],
    to: Frame,
    s: &[u8],
    fr: Frame,
    promoted: bool,
    column: u32,
    row: u32,
)
    requires { (to ≡ tight_at to.form 0) × FitsCanvas s.now fr to.form promoted (length out.old) }
    ensures { out.new ≡ store_tile to.form (tile_pic promoted (decode s.now fr)) column row out.old }
{
    draw_part(out, to, s, fr, promoted, column, row, Part::Luma);
    draw_part(out, to, s, fr, promoted, column, row, Part::Cb);
    draw_part(out, to, s, fr, promoted, column, row, Part::Cr);
    draw_part(out, to, s, fr, promoted, column, row, Part::Alpha);
}
