// Answers as one 64-bit number.
ghost use Rattle.std.specs.Prelude.{◌≡◌};
ghost use Rattle.words.specs.Code.{answer_code, refusal_code};

use laws::{Item, Refusal};

// The largest index that has room in 40 bits; it stands for each above it.
const LAST_INDEX: u64 = 0xff_ffff_ffff;

// Number in bits 0 to 7, sort in bits 8 to 15, index in bits 16 to 55. Not inlined, so that a call that refuses nothing stays short.
#[tactic(auto, unfolding(crate::specs::Code::refusal_code, crate::specs::Code::sort_of, crate::specs::Code::index_of))]
#[inline(never)]
pub fn refusal_code(e: Refusal) -> u64
    ensures { result ≡ refusal_code e }
{
    let why = 0x8000_0000_0000_0000 + e.reason.number() as u64;
    match e.item {
        None => why,
        Some(Item::Record(i)) => why + 256 + 65536 * i.min(LAST_INDEX),
        Some(Item::Entry(i)) => why + 512 + 65536 * i.min(LAST_INDEX),
        Some(Item::Other(sort, i)) => why + 256 * sort as u64 + 65536 * i.min(LAST_INDEX),
    }
}

// The length of the record that was written, or why none was.
#[tactic(auto, unfolding(crate::specs::Code::answer_code))]
pub fn answer_code(a: Result<usize, Refusal>) -> u64
    ensures { result ≡ answer_code a }
{
    match a {
        Ok(n) => n as u64,
        Err(e) => refusal_code(e),
    }
}
