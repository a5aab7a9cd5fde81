// Chains of properties (document 01, "What is handed in"): a count of at most 256, then entries, nothing after.
ghost use Rattle.std.specs.Prelude.{◌≡◌};
ghost use Rattle.props.specs.inner.Judged.{judged_at};

use crate::entry::read_entry;
use laws::{Item, Refusal};

// A chain that was judged: how many entries it has, and where the first stands.
#[derive(Clone, Copy)]
pub struct Chain {
    pub count: u32,
    pub first: usize,
}

// Judges the whole chain that stands at a place and ends with the bytes. Refusals: 5 a count that is malformed; 4 above 256 entries;
// 5 an entry that is malformed, in turn, with its index; 5 bytes left over.
pub fn check_chain(s: &[u8], at: usize) -> Result<Chain, Refusal>
    ensures { result ≡ judged_at s.now at }
{
    let (count, first) = numbers::read_number(s, at)?;
    if count > 256 {
        return Err(Refusal::LIMIT);
    }
    let mut next = first;
    for i in 0..count {
        match read_entry(s, next) {
            Err(e) => return Err(e.about(Item::Entry(i as u64))),
            Ok((_, past)) => next = past,
        }
    }
    if next < s.len() {
        return Err(Refusal::MALFORMED);
    }
    Ok(Chain { count, first })
}
