// A fill colour's samples.
ghost use Rattle.std.specs.Prelude.{◌≡◌, length};
ghost use Rattle.laws.specs.Out.{written};
ghost use Rattle.words.specs.Code.{code_of, none_of};
ghost use Rattle.words.specs.Fill.{colour_of, fill_words};

use laws::Refusal;

// A fill's samples of red, green and blue, in 3 words. Refusals: 6 a depth outside 8 to 16; 17 an answer below 3 words.
#[unsafe(no_mangle)]
pub extern "C" fn compose_fill(
    red: u16,
    green: u16,
    blue: u16,
    depth: u32,
    colour: u8,
    matrix: u16,
    full_range: u8,
    answer: &mut [u16],
) -> u64
    ensures { (result ≡ code_of (none_of (fill_words red green blue depth (colour_of colour matrix full_range) (length answer.old))))
        × (answer.new ≡ written (fill_words red green blue depth (colour_of colour matrix full_range) (length answer.old)) answer.old) }
{
    match fill::fill_to_ycbcr(
        red,
        green,
        blue,
        depth,
        words::colour_of(colour, matrix, full_range),
    ) {
        Err(e) => words::refusal_code(e),
        Ok(s) => {
            if answer.len() < 3 {
                return words::refusal_code(Refusal::ROOM);
            }
            words::put_fill(answer, s);
            0
        }
    }
}
