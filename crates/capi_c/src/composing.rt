// Records composed of others: tiles joined, inputs laid over a canvas. Each answers the length of the record it writes.
ghost use Rattle.std.specs.Prelude.{◌≡◌, length};
ghost use Rattle.laws.specs.Out.{answer_of, written};
ghost use Rattle.grid.specs.Run.{grid_run};
ghost use Rattle.overlay.specs.Run.{overlay_run};
ghost use Rattle.words.specs.Code.{answer_code};
ghost use Rattle.words.specs.Fill.{colour_of};

#[unsafe(no_mangle)]
pub extern "C" fn compose_grid(body: &[u8], tray: &[u8], out: &mut [u8]) -> u64
    ensures { (result ≡ answer_code (answer_of (grid_run body.now tray.now (length out.old))))
        × (out.new ≡ written (grid_run body.now tray.now (length out.old)) out.old) }
{
    capi::composing::compose_grid(body, tray, out)
}

#[unsafe(no_mangle)]
pub extern "C" fn compose_overlay(
    body: &[u8],
    tray: &[u8],
    premultiplied: &[u8],
    colour: u8,
    matrix: u16,
    full_range: u8,
    out: &mut [u8],
) -> u64
    ensures { (result ≡ answer_code (answer_of (overlay_run body.now tray.now premultiplied.now (colour_of colour matrix full_range) (length out.old))))
        × (out.new ≡ written (overlay_run body.now tray.now premultiplied.now (colour_of colour matrix full_range) (length out.old)) out.old) }
{
    capi::composing::compose_overlay(body, tray, premultiplied, colour, matrix, full_range, out)
}
