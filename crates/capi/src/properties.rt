// Chains, apertures, scaled sizes, and the steps program's text.
ghost use Rattle.std.specs.Prelude.{◌≡◌, length};
ghost use Rattle.laws.specs.Out.{answer_of, written, fitted};
ghost use Rattle.steps_text.specs.Text.{text_of};
ghost use Rattle.words.specs.Code.{answer_code, code_of, none_of};
ghost use Rattle.words.specs.Properties.{chain_count, clap_of, clap_words, iscl_of, iscl_words};

use laws::Refusal;
use sizes::{Clap, Iscl};

// How many entries a chain has. Refusals: the chain's.
#[unsafe(no_mangle)]
pub extern "C" fn compose_chain(chain: &[u8]) -> u64
    ensures { result ≡ code_of (chain_count chain.now) }
{
    match props::check_chain(chain, 0) {
        Err(e) => words::refusal_code(e),
        Ok(c) => c.count as u64,
    }
}

// The rectangle of an aperture in a picture of that size and the margins about it, in 8 words: x, y, width, height, left, top, right,
// bottom. Refusals: clap's; 17 an answer below 8 words.
#[unsafe(no_mangle)]
pub extern "C" fn compose_clap_resolve(
    width_n: u32,
    width_d: u32,
    height_n: u32,
    height_d: u32,
    horiz_off_n: u32,
    horiz_off_d: u32,
    vert_off_n: u32,
    vert_off_d: u32,
    width: u32,
    height: u32,
    answer: &mut [u32],
) -> u64
    ensures { (result ≡ code_of (none_of (clap_words (clap_of width_n width_d height_n height_d horiz_off_n horiz_off_d vert_off_n vert_off_d) width height (length answer.old))))
        × (answer.new ≡ written (clap_words (clap_of width_n width_d height_n height_d horiz_off_n horiz_off_d vert_off_n vert_off_d) width height (length answer.old)) answer.old) }
{
    let clap = Clap {
        width_n,
        width_d,
        height_n,
        height_d,
        horiz_off_n,
        horiz_off_d,
        vert_off_n,
        vert_off_d,
    };
    match clap.resolve(width, height) {
        Err(e) => words::refusal_code(e),
        Ok(k) => {
            if answer.len() < 8 {
                return words::refusal_code(Refusal::ROOM);
            }
            words::put_crop(answer, k);
            0
        }
    }
}

// The size that an iscl makes of a size, in 2 words: width, height. Refusals: iscl's; 17 an answer below 2 words.
#[unsafe(no_mangle)]
pub extern "C" fn compose_iscl_size(
    width_num: u16,
    width_den: u16,
    height_num: u16,
    height_den: u16,
    width: u32,
    height: u32,
    answer: &mut [u32],
) -> u64
    ensures { (result ≡ code_of (none_of (iscl_words (iscl_of width_num width_den height_num height_den) width height (length answer.old))))
        × (answer.new ≡ written (iscl_words (iscl_of width_num width_den height_num height_den) width height (length answer.old)) answer.old) }
{
    let iscl = Iscl {
        width_num,
        width_den,
        height_num,
        height_den,
    };
    match iscl.output_size(width, height) {
        Err(e) => words::refusal_code(e),
        Ok(z) => {
            if answer.len() < 2 {
                return words::refusal_code(Refusal::ROOM);
            }
            words::put_words(answer, 0, z.width, z.height);
            0
        }
    }
}

// The text that `steps` prints for an input, written from the start of `out` on. Refusal: 17 a buffer that is shorter than the text.
#[unsafe(no_mangle)]
pub extern "C" fn compose_steps(input: &[u8], out: &mut [u8]) -> u64
    ensures { (result ≡ answer_code (answer_of (fitted (length out.old) (text_of input.now))))
        × (out.new ≡ written (fitted (length out.old) (text_of input.now)) out.old) }
{
    words::answer_code(steps_text::steps_text(input, out))
}
