// The grid's descriptor (ISO/IEC 23008-12, 6.6.2.3.2).
ghost use Rattle.std.specs.Prelude.{◌≡◌, ◌≤◌};
ghost use Rattle.derived.specs.Grid.{grid_at, grid_of};

use crate::canvas::{read_canvas, read_start};
use laws::Refusal;
use numbers::Cursor;

// The tiles down and across, each 1 to 256, and the canvas's sides.
#[derive(Clone, Copy)]
pub struct GridDescriptor {
    pub rows: u32,
    pub columns: u32,
    pub output_width: u32,
    pub output_height: u32,
}

// What follows the flags, with sizes of so many bytes.
#[tactic(auto, unfolding(crate::specs::Grid::grid_at, numbers::specs::Field::on_field, laws::specs::Out::and_then))]
fn read_grid(body: &[u8], at: Cursor, bytes: usize) -> Result<GridDescriptor, Refusal>
    requires { bytes ≤ 4 }
    ensures { result ≡ grid_at body.now at.at bytes }
{
    let (rows, a) = at.field(body, 1)?;
    let (columns, b) = a.field(body, 1)?;
    let (canvas, _) = read_canvas(body, b, bytes)?;
    Ok(GridDescriptor {
        rows: rows + 1,
        columns: columns + 1,
        output_width: canvas.width,
        output_height: canvas.height,
    })
}

impl GridDescriptor {
    // The descriptor of a body. Refusals: 1 empty, 2 a version that is not 0, 1 short, 3 a side 0, 4 above 2^30 pixels. Inlined, since
    // C's call for a grid's body takes twice as long otherwise.
    #[tactic(auto, unfolding(crate::specs::Grid::grid_of, laws::specs::Out::and_then))]
    #[inline(always)]
    pub fn parse(body: &[u8]) -> Result<GridDescriptor, Refusal>
        ensures { result ≡ grid_of body.now }
    {
        let (bytes, at) = read_start(body)?;
        read_grid(body, at, bytes)
    }
}
