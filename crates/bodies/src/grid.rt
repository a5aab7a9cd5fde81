// The grid's body (ISO/IEC 23008-12, 6.6.2.3.2).
ghost use Rattle.std.specs.Prelude.{◌&&◌, not, true, ◌≡◌, ◌≤◌, length};
ghost use Rattle.laws.specs.Out.{answer_of, refuse, written};
ghost use Rattle.laws.specs.Puts.{puts};
ghost use Rattle.bodies.specs.Grid.{grid_body_in, grid_body_run, is_tile_count};

use crate::form::{field_bytes, flags_of, narrow_canvas, put_canvas};
use derived::GridDescriptor;
use image::Size;
use laws::Refusal;

// Whether so many tiles can stand along an axis: 1 to 256.
#[tactic(auto, unfolding(crate::specs::Grid::is_tile_count))]
fn is_tile_count(n: u32) -> bool
    ensures { result ≡ is_tile_count n }
{
    1 <= n && n <= 256
}

// Rows and columns: 19 outside 1 to 256.
#[tactic(auto, unfolding(laws::specs::Out::refuse))]
fn judge_tiles(rows: u32, columns: u32) -> Result<(), Refusal>
    ensures { result ≡ refuse (not (is_tile_count rows && is_tile_count columns)) 19 (Ok tt) }
{
    if is_tile_count(rows) && is_tile_count(columns) {
        Ok(())
    } else {
        Err(Refusal::TILING)
    }
}

// Writes the body with those flags from the start of `out` on, and returns its length.
fn put_grid(out: &mut [u8], flags: u8, grid: GridDescriptor) -> usize
    requires { (is_tile_count grid.rows ≡ true) × (is_tile_count grid.columns ≡ true) × (length (grid_body_in flags grid) ≤ length out.old) }
    ensures { (result ≡ length (grid_body_in flags grid)) × (out.new ≡ puts out.old 0 (grid_body_in flags grid)) }
{
    out[0] = 0;
    out[1] = flags;
    out[2] = (grid.rows - 1) as u8;
    out[3] = (grid.columns - 1) as u8;
    put_canvas(
        out,
        4,
        field_bytes(flags),
        grid.output_width,
        grid.output_height,
    )
}

// Writes the body of a grid from the start of `out` on, with sizes of 16 bits where both fit, else of 32. Refusals: 19 rows or columns
// outside 1 to 256, 3 a side 0, 4 above 2^30 pixels, 17.
pub fn write_grid(grid: GridDescriptor, out: &mut [u8]) -> Result<usize, Refusal>
    ensures { (result ≡ answer_of (grid_body_run grid (length out.old)))
        × (out.new ≡ written (grid_body_run grid (length out.old)) out.old) }
{
    judge_tiles(grid.rows, grid.columns)?;
    Size::judge(grid.output_width, grid.output_height)?;
    let flags = flags_of(narrow_canvas(grid.output_width, grid.output_height));
    if out.len() < 4 + 2 * field_bytes(flags) {
        return Err(Refusal::ROOM);
    }
    Ok(put_grid(out, flags, grid))
}
