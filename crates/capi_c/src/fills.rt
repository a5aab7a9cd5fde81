// A fill colour's samples.
ghost use Rattle.std.specs.Prelude.{◌≡◌, length};
ghost use Rattle.laws.specs.Out.{written};
ghost use Rattle.words.specs.Code.{code_of, none_of};
ghost use Rattle.words.specs.Fill.{colour_of, fill_words};

#[unsafe(no_mangle)]
pub extern "C" fn compose_fill(
    red: u16,
    green: u16,
    blue: u16,
    depth: u32,
    colour: u8,
    matrix: u16,
    full_range: u8,
    answer: &mut [u16],
) -> u64
    ensures { (result ≡ code_of (none_of (fill_words red green blue depth (colour_of colour matrix full_range) (length answer.old))))
        × (answer.new ≡ written (fill_words red green blue depth (colour_of colour matrix full_range) (length answer.old)) answer.old) }
{
    capi::fills::compose_fill(red, green, blue, depth, colour, matrix, full_range, answer)
}
