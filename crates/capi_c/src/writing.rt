// Descriptor bodies written from their fields.
ghost use Rattle.std.specs.Prelude.{◌≡◌, length};
ghost use Rattle.laws.specs.Out.{answer_of, written};
ghost use Rattle.bodies.specs.Grid.{grid_body_run};
ghost use Rattle.bodies.specs.Overlay.{fields_in, overlay_body_run};
ghost use Rattle.words.specs.Code.{answer_code};
ghost use Rattle.words.specs.Descriptors.{fill_by, grid_by};

#[unsafe(no_mangle)]
pub extern "C" fn compose_write_grid(
    rows: u32,
    columns: u32,
    width: u32,
    height: u32,
    out: &mut [u8],
) -> u64
    ensures { (result ≡ answer_code (answer_of (grid_body_run (grid_by rows columns width height) (length out.old))))
        × (out.new ≡ written (grid_body_run (grid_by rows columns width height) (length out.old)) out.old) }
{
    capi::writing::compose_write_grid(rows, columns, width, height, out)
}

#[unsafe(no_mangle)]
pub extern "C" fn compose_write_overlay(
    red: u16,
    green: u16,
    blue: u16,
    alpha: u16,
    width: u32,
    height: u32,
    offsets: &[u32],
    out: &mut [u8],
) -> u64
    ensures { (result ≡ answer_code (answer_of (overlay_body_run (fields_in (fill_by red green blue alpha) width height offsets.now) (length out.old))))
        × (out.new ≡ written (overlay_body_run (fields_in (fill_by red green blue alpha) width height offsets.now) (length out.old)) out.old) }
{
    capi::writing::compose_write_overlay(red, green, blue, alpha, width, height, offsets, out)
}
