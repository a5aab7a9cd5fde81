// Which input and which spot of it a final place shows. Each answers 0 and writes 10 words: 1 an input or 0 fill, the input, the
// spot's column and row (0 for fill); the chain's rectangle in the composed picture as x, y, width, height; 1 where left and right
// are exchanged, else 0; quarter turns anticlockwise.
ghost use Rattle.std.specs.Prelude.{◌≡◌, length};
ghost use Rattle.laws.specs.Out.{written};
ghost use Rattle.point.specs.Point.{grid_point, overlay_point};
ghost use Rattle.words.specs.Code.{code_of, none_of};
ghost use Rattle.words.specs.Spots.{flag_of, point_words};

#[unsafe(no_mangle)]
pub extern "C" fn compose_grid_point(
    body: &[u8],
    tray: &[u8],
    chain: &[u8],
    essential_only: u8,
    column: u32,
    row: u32,
    answer: &mut [u32],
) -> u64
    ensures { (result ≡ code_of (none_of (point_words (grid_point body.now tray.now chain.now (flag_of essential_only) column row) (length answer.old))))
        × (answer.new ≡ written (point_words (grid_point body.now tray.now chain.now (flag_of essential_only) column row) (length answer.old)) answer.old) }
{
    capi::spots::compose_grid_point(body, tray, chain, essential_only, column, row, answer)
}

#[unsafe(no_mangle)]
pub extern "C" fn compose_overlay_point(
    body: &[u8],
    tray: &[u8],
    chain: &[u8],
    essential_only: u8,
    premultiplied: &[u8],
    colour: u8,
    matrix: u16,
    full_range: u8,
    column: u32,
    row: u32,
    answer: &mut [u32],
) -> u64
    ensures { (result ≡ code_of (none_of (point_words (overlay_point body.now tray.now chain.now (flag_of essential_only) premultiplied.now column row) (length answer.old))))
        × (answer.new ≡ written (point_words (overlay_point body.now tray.now chain.now (flag_of essential_only) premultiplied.now column row) (length answer.old)) answer.old) }
{
    capi::spots::compose_overlay_point(
        body,
        tray,
        chain,
        essential_only,
        premultiplied,
        colour,
        matrix,
        full_range,
        column,
        row,
        answer,
    )
}
