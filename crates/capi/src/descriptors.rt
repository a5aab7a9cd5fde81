// What descriptor bodies hold.
ghost use Rattle.std.specs.Prelude.{◌≡◌, length};
ghost use Rattle.laws.specs.Out.{written};
ghost use Rattle.words.specs.Code.{code_of, none_of};
ghost use Rattle.words.specs.Descriptors.{grid_words, overlay_words, offset_words, offsets_words};

use derived::{GridDescriptor, OverlayDescriptor};
use laws::Refusal;

// What a grid's body says, in 4 words: rows, columns, width, height. Refusals: the body's; 17 an answer below 4 words.
#[unsafe(no_mangle)]
pub extern "C" fn compose_grid_descriptor(body: &[u8], answer: &mut [u64]) -> u64
    ensures { (result ≡ code_of (none_of (grid_words body.now (length answer.old))))
        × (answer.new ≡ written (grid_words body.now (length answer.old)) answer.old) }
{
    match GridDescriptor::parse(body) {
        Err(e) => words::refusal_code(e),
        Ok(g) => {
            if answer.len() < 4 {
                return words::refusal_code(Refusal::ROOM);
            }
            let a = words::put_words(answer, 0, g.rows as u64, g.columns as u64);
            words::put_words(answer, a, g.output_width as u64, g.output_height as u64);
            0
        }
    }
}

// What an overlay's body of so many inputs says, in 6 words: the fill's red, green, blue and alpha, width, height. Refusals: the
// body's; 17 an answer below 6 words.
#[unsafe(no_mangle)]
pub extern "C" fn compose_overlay_descriptor(body: &[u8], count: u32, answer: &mut [u64]) -> u64
    ensures { (result ≡ code_of (none_of (overlay_words body.now count (length answer.old))))
        × (answer.new ≡ written (overlay_words body.now count (length answer.old)) answer.old) }
{
    match OverlayDescriptor::parse(body, count) {
        Err(e) => words::refusal_code(e),
        Ok(d) => {
            if answer.len() < 6 {
                return words::refusal_code(Refusal::ROOM);
            }
            let fill = d.canvas_fill;
            let a = words::put_words(answer, 0, fill.red as u64, fill.green as u64);
            let b = words::put_words(answer, a, fill.blue as u64, fill.alpha as u64);
            words::put_words(answer, b, d.output_width as u64, d.output_height as u64);
            0
        }
    }
}

// Where an input of an overlay goes, in 4 words: how far ahead and behind along the width, then down the height, of which one is 0
// each. Refusals: the body's; 11 an index outside; 17 an answer below 4 words.
#[unsafe(no_mangle)]
pub extern "C" fn compose_overlay_offset(
    body: &[u8],
    count: u32,
    index: u32,
    answer: &mut [u64],
) -> u64
    ensures { (result ≡ code_of (none_of (offset_words body.now count index (length answer.old))))
        × (answer.new ≡ written (offset_words body.now count index (length answer.old)) answer.old) }
{
    match OverlayDescriptor::parse(body, count) {
        Err(e) => words::refusal_code(e),
        Ok(d) => {
            if index >= count {
                return words::refusal_code(Refusal::COUNT);
            }
            if answer.len() < 4 {
                return words::refusal_code(Refusal::ROOM);
            }
            let place = d.offset(body, index);
            let h = place.horizontal;
            let v = place.vertical;
            let a = words::put_words(answer, 0, h.ahead as u64, h.behind as u64);
            words::put_words(answer, a, v.ahead as u64, v.behind as u64);
            0
        }
    }
}

// Where all inputs of an overlay go, in 4 words an input, as above. Refusals: the body's; 17 an answer below 4 words an input.
#[unsafe(no_mangle)]
pub extern "C" fn compose_overlay_offsets(body: &[u8], count: u32, answer: &mut [u64]) -> u64
    ensures { (result ≡ code_of (none_of (offsets_words body.now count (length answer.old))))
        × (answer.new ≡ written (offsets_words body.now count (length answer.old)) answer.old) }
{
    match OverlayDescriptor::parse(body, count) {
        Err(e) => words::refusal_code(e),
        Ok(d) => {
            if answer.len() < count as usize * 4 {
                return words::refusal_code(Refusal::ROOM);
            }
            words::put_offsets(answer, body, d);
            0
        }
    }
}
