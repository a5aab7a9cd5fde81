// The canvas session's state in plain words that the caller keeps.
ghost use Rattle.std.specs.Prelude.{◌≡◌, ◌≤◌, length};
ghost use Rattle.laws.specs.Puts.{puts};
ghost use Rattle.words.specs.Canvas.{marks_of, field_of, canvas_of, words_of, kept_words};
ghost use Rattle.words.specs.Code.{code_of, none_of};

use crate::code::refusal_code;
use derived::GridDescriptor;
use image::{Form, PixelFormat};
use laws::Refusal;
use session::Canvas;

// A word as a number of 32 bits; a greater word as the greatest.
#[tactic(auto, unfolding(crate::specs::Canvas::field_of, laws::specs::Pick::pick))]
pub fn field_of(word: u64) -> u32
    ensures { result ≡ field_of word }
{
    word.min(0xffff_ffff) as u32
}

// The marks behind the state's ten numbers, word by word: the compiler then leaves out the zeros under them.
pub fn marks_of(state: &[u64]) -> [u64; 1024]
    requires { 1034 ≤ length state.now }
    ensures { result ≡ marks_of state.now }
{
    let mut marks = [0u64; 1024];
    for i in 0..1024 {
        marks[i] = state[10 + i];
    }
    marks
}

// The canvas that a state's words say.
pub fn canvas_of(state: &[u64]) -> Canvas
    requires { 1034 ≤ length state.now }
    ensures { result ≡ canvas_of state.now }
{
    Canvas {
        desc: GridDescriptor {
            rows: field_of(state[0]),
            columns: field_of(state[1]),
            output_width: field_of(state[2]),
            output_height: field_of(state[3]),
        },
        tile: Form {
            width: field_of(state[4]),
            height: field_of(state[5]),
            format: PixelFormat {
                chroma: field_of(state[6]),
                depth: field_of(state[7]),
                alpha: field_of(state[8]),
            },
        },
        alpha: field_of(state[9]),
        marks: marks_of(state),
    }
}

// The marks behind the state's ten numbers.
pub fn put_marks(state: &mut [u64], marks: [u64; 1024])
    requires { 1034 ≤ length state.old }
    ensures { (length marks ≡ 1024) × (state.new ≡ puts state.old 10 marks) }
{
    state[10..1034].copy_from_slice(&marks);
}

// A canvas's words at the start.
pub fn put_canvas(state: &mut [u64], canvas: Canvas)
    requires { 1034 ≤ length state.old }
    ensures { (length (words_of canvas) ≡ 1034) × (state.new ≡ puts state.old 0 (words_of canvas)) }
{
    let g = canvas.desc;
    let t = canvas.tile;
    let f = t.format;
    state[0] = g.rows as u64;
    state[1] = g.columns as u64;
    state[2] = g.output_width as u64;
    state[3] = g.output_height as u64;
    state[4] = t.width as u64;
    state[5] = t.height as u64;
    state[6] = f.chroma as u64;
    state[7] = f.depth as u64;
    state[8] = f.alpha as u64;
    state[9] = canvas.alpha as u64;
    put_marks(state, canvas.marks);
}

// The new state of a call that was accepted, and its number.
pub fn keep(state: &mut [u64], called: Result<Canvas, Refusal>) -> u64
    requires { 1034 ≤ length state.old }
    ensures { (result ≡ code_of (none_of called))
        × (state.new ≡ kept_words called state.old) }
{
    match called {
        Err(e) => refusal_code(e),
        Ok(canvas) => {
            put_canvas(state, canvas);
            0
        }
    }
}
