// The canvas session, its state in plain words that the caller keeps. Any words are safe: a state that no call can have made is 5.
ghost use Rattle.std.specs.Prelude.{◌≡◌, length};
ghost use Rattle.laws.specs.Out.{written};
ghost use Rattle.session.specs.Session.{drawn_buffer};
ghost use Rattle.words.specs.Code.{code_of, none_of};
ghost use Rattle.words.specs.Canvas.{start_run, place_run, blank_run, finish_run, state_after};

use laws::Refusal;
use session::Canvas;

// A canvas for a grid's body, in 1034 words. Refusals: the body's; 17 a state below 1034 words.
#[unsafe(no_mangle)]
pub extern "C" fn compose_canvas_start(body: &[u8], state: &mut [u64]) -> u64
    ensures { (result ≡ code_of (none_of (start_run body.now (length state.old))))
        × (state.new ≡ written (start_run body.now (length state.old)) state.old) }
{
    match Canvas::start(body) {
        Err(e) => words::refusal_code(e),
        Ok(canvas) => {
            if state.len() < 1034 {
                return words::refusal_code(Refusal::ROOM);
            }
            words::put_canvas(state, canvas);
            0
        }
    }
}

// A tile's record in its cell of the buffer. Refusals: 17 a state below 1034 words; 5 a state that no call can have made; 11 index
// outside; the record's; 12, 13, 14; 17 a buffer below the canvas's record and its reserved alpha plane.
#[unsafe(no_mangle)]
pub extern "C" fn compose_canvas_place(
    state: &mut [u64],
    index: u32,
    record: &[u8],
    buffer: &mut [u8],
) -> u64
    ensures { (result ≡ code_of (none_of (place_run state.old index «record».now buffer.old)))
        × (state.new ≡ state_after (place_run state.old index «record».now buffer.old) state.old)
        × (buffer.new ≡ drawn_buffer buffer.old (place_run state.old index «record».now buffer.old)) }
{
    if state.len() < 1034 {
        return words::refusal_code(Refusal::ROOM);
    }
    let canvas = words::canvas_of(state);
    words::keep(state, canvas.place(index, record, buffer))
}

// A blank cell of the first tile's form. Refusals: 17 a state below 1034 words; 5; 15 nothing placed; 11 index outside; 17.
#[unsafe(no_mangle)]
pub extern "C" fn compose_canvas_blank(state: &mut [u64], index: u32, buffer: &mut [u8]) -> u64
    ensures { (result ≡ code_of (none_of (blank_run state.old index buffer.old)))
        × (state.new ≡ state_after (blank_run state.old index buffer.old) state.old)
        × (buffer.new ≡ drawn_buffer buffer.old (blank_run state.old index buffer.old)) }
{
    if state.len() < 1034 {
        return words::refusal_code(Refusal::ROOM);
    }
    let canvas = words::canvas_of(state);
    words::keep(state, canvas.blank(index, buffer))
}

// The length of the record in the buffer; nothing is written. Refusals: 17 a state below 1034 words; 5; 15 a cell missing; 17.
#[unsafe(no_mangle)]
pub extern "C" fn compose_canvas_finish(state: &[u64], buffer: &[u8]) -> u64
    ensures { result ≡ code_of (finish_run state.now (length buffer.now)) }
{
    if state.len() < 1034 {
        return words::refusal_code(Refusal::ROOM);
    }
    let canvas = words::canvas_of(state);
    words::answer_code(canvas.finish(buffer.len()))
}
