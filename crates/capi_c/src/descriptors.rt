// What descriptor bodies hold.
ghost use Rattle.std.specs.Prelude.{◌≡◌, length};
ghost use Rattle.laws.specs.Out.{written};
ghost use Rattle.words.specs.Code.{code_of, none_of};
ghost use Rattle.words.specs.Descriptors.{grid_words, overlay_words, offset_words, offsets_words};

#[unsafe(no_mangle)]
pub extern "C" fn compose_grid_descriptor(body: &[u8], answer: &mut [u64]) -> u64
    ensures { (result ≡ code_of (none_of (grid_words body.now (length answer.old))))
        × (answer.new ≡ written (grid_words body.now (length answer.old)) answer.old) }
{
    capi::descriptors::compose_grid_descriptor(body, answer)
}

#[unsafe(no_mangle)]
pub extern "C" fn compose_overlay_descriptor(body: &[u8], count: u32, answer: &mut [u64]) -> u64
    ensures { (result ≡ code_of (none_of (overlay_words body.now count (length answer.old))))
        × (answer.new ≡ written (overlay_words body.now count (length answer.old)) answer.old) }
{
    capi::descriptors::compose_overlay_descriptor(body, count, answer)
}

#[unsafe(no_mangle)]
pub extern "C" fn compose_overlay_offset(
    body: &[u8],
    count: u32,
    index: u32,
    answer: &mut [u64],
) -> u64
    ensures { (result ≡ code_of (none_of (offset_words body.now count index (length answer.old))))
        × (answer.new ≡ written (offset_words body.now count index (length answer.old)) answer.old) }
{
    capi::descriptors::compose_overlay_offset(body, count, index, answer)
}

#[unsafe(no_mangle)]
pub extern "C" fn compose_overlay_offsets(body: &[u8], count: u32, answer: &mut [u64]) -> u64
    ensures { (result ≡ code_of (none_of (offsets_words body.now count (length answer.old))))
        × (answer.new ≡ written (offsets_words body.now count (length answer.old)) answer.old) }
{
    capi::descriptors::compose_overlay_offsets(body, count, answer)
}
