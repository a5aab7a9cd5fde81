// Descriptor bodies written from their fields.
ghost use Rattle.std.specs.Prelude.{◌≡◌, length};
ghost use Rattle.laws.specs.Out.{answer_of, written};
ghost use Rattle.bodies.specs.Grid.{grid_body_run};
ghost use Rattle.bodies.specs.Overlay.{fields_in, overlay_body_run};
ghost use Rattle.words.specs.Code.{answer_code};
ghost use Rattle.words.specs.Descriptors.{fill_by, grid_by};

use derived::{Fill, GridDescriptor};

// The body of a grid, at the start of `out`; answers its length. Refusals: 19 rows or columns outside 1 to 256; 3; 4; 17.
#[unsafe(no_mangle)]
pub extern "C" fn compose_write_grid(
    rows: u32,
    columns: u32,
    width: u32,
    height: u32,
    out: &mut [u8],
) -> u64
    ensures { (result ≡ answer_code (answer_of (grid_body_run (grid_by rows columns width height) (length out.old))))
        × (out.new ≡ written (grid_body_run (grid_by rows columns width height) (length out.old)) out.old) }
{
    words::answer_code(bodies::write_grid(
        GridDescriptor {
            rows,
            columns,
            output_width: width,
            output_height: height,
        },
        out,
    ))
}

// The body of an overlay, at the start of `out`; answers its length. Of each input in turn `offsets` has two words, the unsigned
// patterns of its horizontal and its vertical offset; a last word without a partner is not looked at. Refusals: 3; 4; 4 above 65,536
// inputs; 15 without inputs; 17.
#[unsafe(no_mangle)]
pub extern "C" fn compose_write_overlay(
    red: u16,
    green: u16,
    blue: u16,
    alpha: u16,
    width: u32,
    height: u32,
    offsets: &[u32],
    out: &mut [u8],
) -> u64
    ensures { (result ≡ answer_code (answer_of (overlay_body_run (fields_in (fill_by red green blue alpha) width height offsets.now) (length out.old))))
        × (out.new ≡ written (overlay_body_run (fields_in (fill_by red green blue alpha) width height offsets.now) (length out.old)) out.old) }
{
    words::answer_code(bodies::write_overlay(
        Fill {
            red,
            green,
            blue,
            alpha,
        },
        width,
        height,
        offsets,
        out,
    ))
}
