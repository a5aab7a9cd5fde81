// Lines of text, and how long they are.
ghost use Rattle.std.specs.Prelude.{◌≡◌, ◌+◌, ◌≤◌, length};
ghost use Rattle.laws.specs.Puts.{puts};
ghost use Rattle.steps_text.specs.Text.{field_text, line_text, refusal_text, refused_line};

use image::Size;
use laws::Refusal;

// A number in decimal and a byte after it.
fn put_field(out: &mut [u8], at: usize, n: u32, after: u8) -> usize
    requires { at + length (field_text n after) ≤ length out.old }
    ensures { (result ≡ at + length (field_text n after)) × (out.new ≡ puts out.old at (field_text n after)) }
{
    let end = numbers::write_decimal(out, at, n as u64);
    out[end] = after;
    end + 1
}

// An entry's index and kind and the size after it.
pub(crate) fn put_line(out: &mut [u8], at: usize, index: u32, kind: u32, size: Size) -> usize
    requires { at + length (line_text index kind size) ≤ length out.old }
    ensures { (result ≡ at + length (line_text index kind size)) × (out.new ≡ puts out.old at (line_text index kind size)) }
{
    let a = put_field(out, at, index, 32);
    let b = put_field(out, a, kind, 32);
    let c = put_field(out, b, size.width, 32);
    put_field(out, c, size.height, 10)
}

// `refused` and the number.
pub(crate) fn put_refusal(out: &mut [u8], at: usize, e: Refusal) -> usize
    requires { at + length (refusal_text e) ≤ length out.old }
    ensures { (result ≡ at + length (refusal_text e)) × (out.new ≡ puts out.old at (refusal_text e)) }
{
    let a = planes::copy_row(out, at, b"refused ");
    put_field(out, a, e.reason.number() as u32, 10)
}

// A refused entry's index and kind and why it is refused.
pub(crate) fn put_refused_line(
    out: &mut [u8],
    at: usize,
    index: u32,
    kind: u32,
    e: Refusal,
) -> usize
    requires { at + length (refused_line index kind e) ≤ length out.old }
    ensures { (result ≡ at + length (refused_line index kind e)) × (out.new ≡ puts out.old at (refused_line index kind e)) }
{
    let a = put_field(out, at, index, 32);
    let b = put_field(out, a, kind, 32);
    put_refusal(out, b, e)
}

pub(crate) fn line_length(index: u32, kind: u32, size: Size) -> usize
    ensures { result ≡ length (line_text index kind size) }
{
    let sides = numbers::decimal_length(size.width as u64)
        + numbers::decimal_length(size.height as u64);
    numbers::decimal_length(index as u64) + numbers::decimal_length(kind as u64) + sides + 4
}

pub(crate) fn refusal_length(e: Refusal) -> usize
    ensures { result ≡ length (refusal_text e) }
{
    numbers::decimal_length(e.reason.number() as u64) + 9
}

pub(crate) fn refused_line_length(index: u32, kind: u32, e: Refusal) -> usize
    ensures { result ≡ length (refused_line index kind e) }
{
    numbers::decimal_length(index as u64)
        + numbers::decimal_length(kind as u64)
        + 2
        + refusal_length(e)
}
