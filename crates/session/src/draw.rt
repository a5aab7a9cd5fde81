// What place and blank write: the canvas at the first place, the alpha number, a blank cell.
ghost use Rattle.std.specs.Prelude.{◌≡◌, ◌+◌, ◌*◌, ◌≤◌, ◌<◌, length, ℕ};
ghost use Rattle.planes.specs.Bytes.{size_of, encode, samples_of, tight_at};
ghost use Rattle.image.specs.Sound.{FormSound};
ghost use Rattle.cells.specs.Cell.{store_part, store_tile, tile_pic};
ghost use Rattle.paste.specs.Stored.{store_rows};
ghost use Rattle.cells.specs.inner.Rows.{FitsCanvas};
ghost use Rattle.session.specs.Session.{begun, alpha_told, blank_at, blank_pic};

use image::{Form, Part, PixelFormat};
use records::Frame;

// The canvas, before its first tile.
pub fn begin(out: &mut [u8], first: bool, canvas: Form)
    requires { FormSound canvas × (size_of canvas ≤ length out.old) }
    ensures { out.new ≡ begun first canvas out.old }
{
    if first {
        grid::paint_canvas(out, canvas, 0);
    }
}

// The alpha number, when a tile has alpha.
pub fn tell_alpha(out: &mut [u8], canvas: Form, tile: Form)
    requires { (canvas.format.alpha ≡ 1) × (size_of canvas ≤ length out.old) }
    ensures { out.new ≡ alpha_told canvas tile out.old }
{
    let f = tile.format;
    if f.alpha != 0 {
        out[planes::head_size(canvas) - 1] = 1;
    }
}

// A blank tile's sample: no colour, alpha at top.
#[tactic(auto, unfolding(crate::specs::Session::blank_at))]
fn blank_sample(f: PixelFormat, part: Part) -> u16
    requires { (1 ≤ f.depth) × (f.depth ≤ 16) }
    ensures { result ≡ blank_at f part }
{
    match part {
        Part::Luma | Part::Cb | Part::Cr => f.middle(),
        Part::Alpha => f.top(),
    }
}

// One part of a blank tile in its cell, if the tile has it.
fn blank_part(
    out: &mut [u8],
    to: Frame,
    tile: Form,
    promoted: bool,
    column: u32,
    row: u32,
    part: Part,
)
    requires { (to ≡ tight_at to.form 0) × FitsCanvas (encode (blank_pic tile)) (tight_at tile 0) to.form promoted (length out.old) }
    ensures { out.new ≡ store_part to.form (tile_pic promoted (blank_pic tile)) column row part out.old }
{
    let f = tile.format;
    if f.has(part) {
        let cell = cells::cell_of(to, cells::tile_form(promoted, tile), column, row, part);
        paste::store_even(
            out,
            cell.at,
            cell.stride,
            cell.across,
            cell.down,
            f.bytes_per_sample(),
            blank_sample(f, part),
        );
    }
}

// A blank tile of that form in its cell.
pub fn draw_blank(out: &mut [u8], to: Frame, tile: Form, promoted: bool, column: u32, row: u32)
    requires { (to ≡ tight_at to.form 0) × FitsCanvas (encode (blank_pic tile)) (tight_at tile 0) to.form promoted (length out.old) }
    ensures { out.new ≡ store_tile to.form (tile_pic promoted (blank_pic tile)) column row out.old }
{
    blank_part(out, to, tile, promoted, column, row, Part::Luma);
    blank_part(out, to, tile, promoted, column, row, Part::Cb);
    blank_part(out, to, tile, promoted, column, row, Part::Cr);
    blank_part(out, to, tile, promoted, column, row, Part::Alpha);
}
