// The sentence of a refusal (document 02, A2).
#![tactic(auto)]

ghost use Rattle.std.specs.Prelude.{◌≡◌, ◌+◌, ◌≤◌, length};
ghost use Rattle.laws.specs.Out.{answer_of, written};
ghost use Rattle.laws.specs.Puts.{puts};
ghost use Rattle.sentence.specs.inner.Texts.{Known, item_at, last_sort, sentence_at};
ghost use Rattle.sentence.specs.Sentence.{sentence_run};

use crate::table::{reason_text, sort_text};
use laws::Refusal;

mod table;

// The last sort and the last number that have a row.
const LAST_SORT: u8 = 2;

const LAST_NUMBER: u32 = 19;

// Writes the word of an item's sort and its index at `at`, nothing for sort 0, and returns the place past them.
fn put_item(out: &mut [u8], at: usize, sort: u8, index: u64, language: u8) -> usize
    requires { (sort ≤ last_sort) × (language ≤ 1) × (at + length (item_at sort index language) ≤ length out.old) }
    ensures { (result ≡ at + length (item_at sort index language)) × (out.new ≡ puts out.old at (item_at sort index language)) }
{
    if sort == 0 {
        return at;
    }
    let a = planes::copy_row(out, at, sort_text(sort, language));
    let b = numbers::write_decimal(out, a, index);
    planes::copy_row(out, b, b")")
}

// Writes a whole sentence from the start of `out` on, and returns its length.
fn put_sentence(out: &mut [u8], number: u32, sort: u8, index: u64, language: u8) -> usize
    requires { Known number sort language × (length (sentence_at number sort index language) ≤ length out.old) }
    ensures { (result ≡ length (sentence_at number sort index language)) × (out.new ≡ puts out.old 0 (sentence_at number sort index language)) }
{
    let a = numbers::write_decimal(out, 0, number as u64);
    let b = planes::copy_row(out, a, b": ");
    let c = planes::copy_row(out, b, reason_text(number, language));
    let d = put_item(out, c, sort, index, language);
    planes::copy_row(out, d, b".")
}

// Writes the sentence of a refusal, in German (0) or English (1), from the start of `out` on. Refusals: 5 a number, a sort or a
// language that is not known; 17 a buffer that is shorter than the sentence. With sort 0 the index is not looked at.
pub fn write_sentence(
    number: u32,
    sort: u8,
    index: u64,
    language: u8,
    out: &mut [u8],
) -> Result<usize, Refusal>
    ensures { (result ≡ answer_of (sentence_run number sort index language (length out.old)))
        × (out.new ≡ written (sentence_run number sort index language (length out.old)) out.old) }
{
    if number < 1 || number > LAST_NUMBER || sort > LAST_SORT || language > 1 {
        return Err(Refusal::MALFORMED);
    }
    let mut text = [0u8; 192];
    let end = put_sentence(&mut text, number, sort, index, language);
    if out.len() < end {
        return Err(Refusal::ROOM);
    }
    Ok(planes::copy_row(out, 0, &text[..end]))
}
