// Where the inputs of an overlay go, in lent words.
ghost use Rattle.std.specs.Prelude.{◌≡◌, ◌%◌, ◌*◌, ◌+◌, ◌≤◌, length};
ghost use Rattle.laws.specs.Puts.{puts};
ghost use Rattle.numbers.specs.Field.{offset_of};
ghost use Rattle.derived.specs.Overlay.{signed_at};
ghost use Rattle.derived.specs.inner.Sound.{OverlaySound};
ghost use Rattle.words.specs.Descriptors.{offsets_fields};

use crate::answers::put_words;
use derived::OverlayDescriptor;
use numbers::Offset;

// The signed number of two bytes at a place, or of four.
fn offset_at(body: &[u8], at: usize, bytes: usize) -> Offset
    requires { (2 ≤ bytes) × (bytes ≤ 4) × (bytes % 2 ≡ 0) × (at + bytes ≤ length body.now) }
    ensures { result ≡ offset_of (signed_at body.now at bytes) }
{
    let high = body[at] as u32 * 256 + body[at + 1] as u32;
    if bytes < 4 {
        return numbers::signed(high, 0x1_0000);
    }
    let pattern = (high * 256 + body[at + 2] as u32) * 256 + body[at + 3] as u32;
    numbers::signed(pattern, 0x1_0000_0000)
}

// Four words an input, from the start. How many bytes an offset has is the same for all of them.
pub fn put_offsets(answer: &mut [u64], body: &[u8], d: OverlayDescriptor)
    requires { OverlaySound body.now d × (d.bytes % 2 ≡ 0) × (d.count * 4 ≤ length answer.old) }
    ensures { answer.new ≡ puts answer.old 0 (offsets_fields body.now d d.count) }
{
    let bytes = d.bytes;
    let mut at = 0;
    for i in 0..d.count {
        let from = d.offsets + i as usize * (2 * bytes);
        let h = offset_at(body, from, bytes);
        let v = offset_at(body, from + bytes, bytes);
        let middle = put_words(answer, at, h.ahead as u64, h.behind as u64);
        at = put_words(answer, middle, v.ahead as u64, v.behind as u64);
    }
}
