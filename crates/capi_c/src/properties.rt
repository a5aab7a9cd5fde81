// Chains, apertures, scaled sizes, and the steps program's text.
ghost use Rattle.std.specs.Prelude.{◌≡◌, length};
ghost use Rattle.laws.specs.Out.{answer_of, written, fitted};
ghost use Rattle.steps_text.specs.Text.{text_of};
ghost use Rattle.words.specs.Code.{answer_code, code_of, none_of};
ghost use Rattle.words.specs.Properties.{chain_count, clap_of, clap_words, iscl_of, iscl_words};

#[unsafe(no_mangle)]
pub extern "C" fn compose_chain(chain: &[u8]) -> u64
    ensures { result ≡ code_of (chain_count chain.now) }
{
    capi::properties::compose_chain(chain)
}

#[unsafe(no_mangle)]
pub extern "C" fn compose_clap_resolve(
    width_n: u32,
    width_d: u32,
    height_n: u32,
    height_d: u32,
    horiz_off_n: u32,
    horiz_off_d: u32,
    vert_off_n: u32,
    vert_off_d: u32,
    width: u32,
    height: u32,
    answer: &mut [u32],
) -> u64
    ensures { (result ≡ code_of (none_of (clap_words (clap_of width_n width_d height_n height_d horiz_off_n horiz_off_d vert_off_n vert_off_d) width height (length answer.old))))
        × (answer.new ≡ written (clap_words (clap_of width_n width_d height_n height_d horiz_off_n horiz_off_d vert_off_n vert_off_d) width height (length answer.old)) answer.old) }
{
    capi::properties::compose_clap_resolve(
        width_n,
        width_d,
        height_n,
        height_d,
        horiz_off_n,
        horiz_off_d,
        vert_off_n,
        vert_off_d,
        width,
        height,
        answer,
    )
}

#[unsafe(no_mangle)]
pub extern "C" fn compose_iscl_size(
    width_num: u16,
    width_den: u16,
    height_num: u16,
    height_den: u16,
    width: u32,
    height: u32,
    answer: &mut [u32],
) -> u64
    ensures { (result ≡ code_of (none_of (iscl_words (iscl_of width_num width_den height_num height_den) width height (length answer.old))))
        × (answer.new ≡ written (iscl_words (iscl_of width_num width_den height_num height_den) width height (length answer.old)) answer.old) }
{
    capi::properties::compose_iscl_size(
        width_num, width_den, height_num, height_den, width, height, answer,
    )
}

#[unsafe(no_mangle)]
pub extern "C" fn compose_steps(input: &[u8], out: &mut [u8]) -> u64
    ensures { (result ≡ answer_code (answer_of (fitted (length out.old) (text_of input.now))))
        × (out.new ≡ written (fitted (length out.old) (text_of input.now)) out.old) }
{
    capi::properties::compose_steps(input, out)
}
