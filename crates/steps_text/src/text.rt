// The whole text of an input.
ghost use Rattle.std.specs.Prelude.{◌≡◌, ◌≤◌, length};
ghost use Rattle.laws.specs.Out.{answer_of, written, fitted};
ghost use Rattle.laws.specs.Puts.{puts};
ghost use Rattle.steps_text.specs.inner.Step.{Readable, StepAt, Taken};
ghost use Rattle.steps_text.specs.Text.{text_of};

use crate::input::{Input, read_input};
use crate::line::{
    line_length, put_line, put_refusal, put_refused_line, refusal_length, refused_line_length,
};
use image::Size;
use laws::Refusal;

// An entry that was applied: its kind, the size after it, and the place past it.
#[derive(Clone, Copy)]
struct EntryStep {
    kind: u32,
    after: Result<Size, Refusal>,
    next: usize,
}

// The entry at a place, applied to a size.
fn step(s: &[u8], at: usize, size: Size) -> EntryStep
    requires { Readable s.now at }
    ensures { StepAt s.now at size result }
{
    let (entry, next) = props::read_entry(s, at).unwrap();
    EntryStep {
        kind: entry.property.kind(),
        after: entry.property.size_after(size),
        next,
    }
}

// How long the text of an input is.
fn text_length(s: &[u8], input: Input) -> usize
    requires { Taken s.now input }
    ensures { result ≡ length (text_of s.now) }
{
    let mut at = input.chain.first;
    let mut size = input.size;
    let mut total: usize = 23;
    for index in 0..input.chain.count {
        let made = step(s, at, size);
        match made.after {
            Err(e) => return total + refused_line_length(index, made.kind, e),
            Ok(z) => {
                total += line_length(index, made.kind, z);
                size = z;
            }
        }
        at = made.next;
    }
    total
}

// Writes the text of an input from the start on, and returns its length.
fn write_text(s: &[u8], input: Input, out: &mut [u8]) -> usize
    requires { Taken s.now input × (length (text_of s.now) ≤ length out.old) }
    ensures { (result ≡ length (text_of s.now)) × (out.new ≡ puts out.old 0 (text_of s.now)) }
{
    let mut at = input.chain.first;
    let mut size = input.size;
    let mut end = planes::copy_row(out, 0, b"step kind width height\n");
    for index in 0..input.chain.count {
        let made = step(s, at, size);
        match made.after {
            Err(e) => return put_refused_line(out, end, index, made.kind, e),
            Ok(z) => {
                end = put_line(out, end, index, made.kind, z);
                size = z;
            }
        }
        at = made.next;
    }
    end
}

// Writes the text of an input from the start of `out` on. Refusal: 17 a buffer that is shorter than the text.
pub fn steps_text(input: &[u8], out: &mut [u8]) -> Result<usize, Refusal>
    ensures { (result ≡ answer_of (fitted (length out.old) (text_of input.now)))
        × (out.new ≡ written (fitted (length out.old) (text_of input.now)) out.old) }
{
    match read_input(input) {
        Err(e) => {
            if out.len() < refusal_length(e) {
                return Err(Refusal::ROOM);
            }
            Ok(put_refusal(out, 0, e))
        }
        Ok(i) => {
            if out.len() < text_length(input, i) {
                return Err(Refusal::ROOM);
            }
            Ok(write_text(input, i, out))
        }
    }
}
