// A grid, an overlay or one record, then a chain of transforms. Each answers the length of the record at the start of output; past it
// output is zero, and the spare is all zero.
ghost use Rattle.std.specs.Prelude.{◌≡◌, length};
ghost use Rattle.laws.specs.Out.{answer_of};
ghost use Rattle.scene_room.specs.Scene.{grid_scene, overlay_scene, output_of, spare_of};
ghost use Rattle.scene_room.specs.Transforms.{transforms_run};
ghost use Rattle.words.specs.Code.{answer_code};
ghost use Rattle.words.specs.Fill.{colour_of};
ghost use Rattle.words.specs.Spots.{flag_of};

#[unsafe(no_mangle)]
pub extern "C" fn compose_grid_scene(
    body: &[u8],
    tray: &[u8],
    chain: &[u8],
    essential_only: u8,
    output: &mut [u8],
    spare: &mut [u8],
) -> u64
    ensures { (result ≡ answer_code (answer_of (grid_scene body.now tray.now chain.now (flag_of essential_only) (length output.old) (length spare.old))))
        × (output.new ≡ output_of (grid_scene body.now tray.now chain.now (flag_of essential_only) (length output.old) (length spare.old)) output.old)
        × (spare.new ≡ spare_of (grid_scene body.now tray.now chain.now (flag_of essential_only) (length output.old) (length spare.old)) spare.old) }
{
    capi::scenes::compose_grid_scene(body, tray, chain, essential_only, output, spare)
}

#[unsafe(no_mangle)]
pub extern "C" fn compose_overlay_scene(
    body: &[u8],
    tray: &[u8],
    chain: &[u8],
    essential_only: u8,
    premultiplied: &[u8],
    colour: u8,
    matrix: u16,
    full_range: u8,
    output: &mut [u8],
    spare: &mut [u8],
) -> u64
    ensures { (result ≡ answer_code (answer_of (overlay_scene body.now tray.now chain.now (flag_of essential_only) premultiplied.now (colour_of colour matrix full_range) (length output.old) (length spare.old))))
        × (output.new ≡ output_of (overlay_scene body.now tray.now chain.now (flag_of essential_only) premultiplied.now (colour_of colour matrix full_range) (length output.old) (length spare.old)) output.old)
        × (spare.new ≡ spare_of (overlay_scene body.now tray.now chain.now (flag_of essential_only) premultiplied.now (colour_of colour matrix full_range) (length output.old) (length spare.old)) spare.old) }
{
    capi::scenes::compose_overlay_scene(
        body,
        tray,
        chain,
        essential_only,
        premultiplied,
        colour,
        matrix,
        full_range,
        output,
        spare,
    )
}

#[unsafe(no_mangle)]
pub extern "C" fn compose_transforms(
    record: &[u8],
    chain: &[u8],
    essential_only: u8,
    output: &mut [u8],
    spare: &mut [u8],
) -> u64
    ensures { (result ≡ answer_code (answer_of (transforms_run «record».now chain.now (flag_of essential_only) (length output.old) (length spare.old))))
        × (output.new ≡ output_of (transforms_run «record».now chain.now (flag_of essential_only) (length output.old) (length spare.old)) output.old)
        × (spare.new ≡ spare_of (transforms_run «record».now chain.now (flag_of essential_only) (length output.old) (length spare.old)) spare.old) }
{
    capi::scenes::compose_transforms(record, chain, essential_only, output, spare)
}
