// The overlay's body (ISO/IEC 23008-12, 6.6.2.2.2).
ghost use Rattle.std.specs.Prelude.{◌&&◌, ◌≡◌, ◌+◌, ◌/◌, ◌≤◌, eqb, ltb, length};
ghost use Rattle.laws.specs.Out.{and_then, answer_of, refuse, written};
ghost use Rattle.laws.specs.Puts.{puts};
ghost use Rattle.laws.specs.Span.{span};
ghost use Rattle.numbers.specs.inner.Length.{FieldLength};
ghost use Rattle.image.specs.Format.{judged_size};
ghost use Rattle.bodies.specs.Form.{narrow_canvas};
ghost use Rattle.bodies.specs.Overlay.{fields_in, fill_bytes, overlay_body_run};
ghost use Rattle.bodies.specs.inner.Words.{narrow_inputs, overlay_head, word_bytes};

use crate::form::{field_bytes, flags_of, narrow_canvas, narrow_offset, put_canvas};
use derived::Fill;
use image::Size;
use laws::Refusal;

// How many inputs: 4 above 65,536, 15 none.
#[tactic(auto, unfolding(laws::specs::Out::refuse))]
fn judge_count(count: usize) -> Result<(), Refusal>
    ensures { result ≡ refuse (ltb 65536 count) 4 (refuse (eqb count 0) 15 (Ok tt)) }
{
    if count > 65536 {
        return Err(Refusal::LIMIT);
    }
    if count == 0 {
        return Err(Refusal::MISSING);
    }
    Ok(())
}

// The canvas, then how many inputs: 3 a side 0, 4 above 2^30 pixels; 4 above 65,536 inputs, 15 none.
#[tactic(auto, unfolding(laws::specs::Out::and_then))]
fn judge_fields(width: u32, height: u32, count: usize) -> Result<(), Refusal>
    ensures { result ≡ and_then (judged_size width height) (λ _. refuse (ltb 65536 count) 4 (refuse (eqb count 0) 15 (Ok tt))) }
{
    Size::judge(width, height)?;
    judge_count(count)
}

// Whether 16 bits hold both offsets of every input.
fn narrow_offsets(offsets: &[u32]) -> bool
    ensures { result ≡ narrow_inputs offsets.now (length offsets.now / 2) }
{
    for i in 0..offsets.len() / 2 {
        if !(narrow_offset(offsets[2 * i]) && narrow_offset(offsets[2 * i + 1])) {
            return false;
        }
    }
    true
}

// Whether 16 bits hold the sides of the canvas, too.
fn narrow_overlay(width: u32, height: u32, offsets: &[u32]) -> bool
    ensures { result ≡ narrow_canvas width height && narrow_inputs offsets.now (length offsets.now / 2) }
{
    narrow_canvas(width, height) && narrow_offsets(offsets)
}

// Writes the fill at `at`, and returns the place past it.
fn put_fill(out: &mut [u8], at: usize, fill: Fill) -> usize
    requires { at + length (fill_bytes fill) ≤ length out.old }
    ensures { (result ≡ at + length (fill_bytes fill)) × (out.new ≡ puts out.old at (fill_bytes fill)) }
{
    let a = numbers::write_field(out, at, 2, fill.red as u32);
    let b = numbers::write_field(out, a, 2, fill.green as u32);
    let c = numbers::write_field(out, b, 2, fill.blue as u32);
    numbers::write_field(out, c, 2, fill.alpha as u32)
}

// Writes what stands before the offsets, with those flags, from the start of `out` on, and returns the place past it.
fn put_head(out: &mut [u8], flags: u8, fill: Fill, width: u32, height: u32) -> usize
    requires { length (overlay_head flags fill width height) ≤ length out.old }
    ensures { (result ≡ length (overlay_head flags fill width height)) × (out.new ≡ puts out.old 0 (overlay_head flags fill width height)) }
{
    out[0] = 0;
    out[1] = flags;
    let at = put_fill(out, 2, fill);
    put_canvas(out, at, field_bytes(flags), width, height)
}

// Writes the offsets of every input at `at`, of so many bytes each, and returns the place past them. A pattern's lowest bytes are the
// shorter pattern.
fn put_offsets(out: &mut [u8], at: usize, bytes: usize, offsets: &[u32]) -> usize
    requires { FieldLength bytes × (at + length (span (word_bytes bytes offsets.now) 0 (length offsets.now / 2)) ≤ length out.old) }
    ensures { (result ≡ at + length (span (word_bytes bytes offsets.now) 0 (length offsets.now / 2)))
        × (out.new ≡ puts out.old at (span (word_bytes bytes offsets.now) 0 (length offsets.now / 2))) }
{
    let mut place = at;
    for i in 0..offsets.len() / 2 {
        let middle = numbers::write_field(out, place, bytes, offsets[2 * i]);
        place = numbers::write_field(out, middle, bytes, offsets[2 * i + 1]);
    }
    place
}

// Writes the body of an overlay from the start of `out` on. Of each input in turn `offsets` has two words, the unsigned patterns of its
// horizontal and its vertical offset; a last word without a partner is not looked at. Sizes and offsets are of 16 bits where all fit, else
// of 32. Refusals: 3 a side 0, 4 above 2^30 pixels, 4 above 65,536 inputs, 15 without inputs, 17.
pub fn write_overlay(
    fill: Fill,
    width: u32,
    height: u32,
    offsets: &[u32],
    out: &mut [u8],
) -> Result<usize, Refusal>
    ensures { (result ≡ answer_of (overlay_body_run (fields_in fill width height offsets.now) (length out.old)))
        × (out.new ≡ written (overlay_body_run (fields_in fill width height offsets.now) (length out.old)) out.old) }
{
    let count = offsets.len() / 2;
    judge_fields(width, height, count)?;
    let flags = flags_of(narrow_overlay(width, height, offsets));
    let bytes = field_bytes(flags);
    if out.len() < 10 + 2 * bytes + count * (2 * bytes) {
        return Err(Refusal::ROOM);
    }
    let at = put_head(out, flags, fill, width, height);
    Ok(put_offsets(out, at, bytes, offsets))
}
