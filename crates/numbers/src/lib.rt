// Numbers as bytes: house numbers, big-endian fields, decimal text.
#![tactic(auto)]

ghost use Rattle.std.specs.Prelude.{◌≡◌, ◌+◌, ◌-◌, ◌<◌, ◌≤◌, ◌^◌, length};
ghost use Rattle.laws.specs.Puts.{puts};
ghost use Rattle.numbers.specs.Number.{read_number, number_bytes};
ghost use Rattle.numbers.specs.Field.{big_endian_bytes, field_at, offset_of, signed_of};
ghost use Rattle.numbers.specs.inner.Length.{FieldLength};
ghost use Rattle.numbers.specs.Decimal.{decimal};

use laws::Refusal;

// The number at `at`, group by group, and the place past it.
#[tactic(auto, unfolding(crate::specs::Number::read_number))]
fn read_groups(s: &[u8], at: usize) -> Result<(u32, usize), Refusal>
    ensures { result ≡ read_number s.now at }
{
    let mut least: usize = 0;
    let mut weight: usize = 1;
    let mut value: usize = 0;
    for k in 0..5 {
        let i = at + k;
        if i >= s.len() {
            return Err(Refusal::MALFORMED);
        }
        let b = s[i] as usize;
        if b < 128 {
            if b < least {
                return Err(Refusal::MALFORMED);
            }
            let v = value + b * weight;
            if v >= 4294967296 {
                return Err(Refusal::MALFORMED);
            }
            return Ok((v as u32, i + 1));
        }
        value += (b - 128) * weight;
        weight *= 128;
        least = 1;
    }
    Err(Refusal::MALFORMED)
}

// A house number (document 01, "What is handed in"): one to five bytes of seven bits each, the lowest group first, the top bit set on
// all but the last, below 2^32, in the shortest form. The number at `at`, and the place past it; 5 where it is malformed. Most have one
// group.
pub fn read_number(s: &[u8], at: usize) -> Result<(u32, usize), Refusal>
    ensures { result ≡ read_number s.now at }
{
    if at < s.len() && s[at] < 128 {
        return Ok((s[at] as u32, at + 1));
    }
    read_groups(s, at)
}

// How many bytes the shortest form of n takes.
pub fn number_length(n: u32) -> usize
    ensures { (result ≡ length (number_bytes n)) × (result ≤ 5) }
{
    let mut rest = n;
    let mut count: usize = 1;
    while rest >= 128 {
        rest = rest / 128;
        count += 1;
    }
    count
}

// Writes the shortest form of n at `at`, and returns the place past it.
pub fn write_number(out: &mut [u8], at: usize, n: u32) -> usize
    requires { at + length (number_bytes n) ≤ length out.old }
    ensures { (result ≡ at + length (number_bytes n)) × (out.new ≡ puts out.old at (number_bytes n)) }
{
    let mut i = at;
    let mut rest = n;
    while rest >= 128 {
        out[i] = (rest % 128 + 128) as u8;
        rest = rest / 128;
        i += 1;
    }
    out[i] = rest as u8;
    i + 1
}

// A place in a body that is read field by field.
#[derive(Clone, Copy)]
pub struct Cursor {
    pub at: usize,
}

impl Cursor {
    // The unsigned big-endian field of so many bytes, at most four.
    #[tactic(auto, unfolding(crate::specs::Field::field_at, laws::specs::Pick::pick))]
    pub fn field(self, s: &[u8], bytes: usize) -> Result<(u32, Cursor), Refusal>
        requires { bytes ≤ 4 }
        ensures { result ≡ field_at s.now self.at bytes }
    {
        let at = self.at;
        if at > s.len() || s.len() - at < bytes {
            return Err(Refusal::SHORT);
        }
        let mut value: usize = 0;
        for i in 0..bytes {
            value = value * 256 + s[at + i] as usize;
        }
        Ok((value as u32, Cursor { at: at + bytes }))
    }
}

// Writes the lowest two or four bytes of a number at `at`, the highest of them first, and returns the place past them.
pub fn write_field(out: &mut [u8], at: usize, bytes: usize, value: u32) -> usize
    requires { FieldLength bytes × (at + length (big_endian_bytes bytes value) ≤ length out.old) }
    ensures { (result ≡ at + length (big_endian_bytes bytes value)) × (out.new ≡ puts out.old at (big_endian_bytes bytes value)) }
{
    if bytes < 4 {
        out[at] = (value / 0x100 % 256) as u8;
        out[at + 1] = (value % 256) as u8;
        return at + 2;
    }
    out[at] = (value / 0x100_0000) as u8;
    out[at + 1] = (value / 0x1_0000 % 256) as u8;
    out[at + 2] = (value / 0x100 % 256) as u8;
    out[at + 3] = (value % 256) as u8;
    at + 4
}

// A signed number: ahead - behind, and one of the two is 0.
#[derive(Clone, Copy)]
pub struct Offset {
    pub ahead: u32,
    pub behind: u32,
}

// The signed number of a two's complement pattern, of `range` patterns.
#[tactic(auto, unfolding(crate::specs::Field::signed_of, crate::specs::Field::offset_of, laws::specs::Pick::pick))]
pub fn signed(pattern: u32, range: u64) -> Offset
    requires { (pattern < range) × (range ≤ 2 ^ 32) }
    ensures { result ≡ offset_of (signed_of range pattern) }
{
    let p = pattern as u64;
    if p < range / 2 {
        return Offset {
            ahead: pattern,
            behind: 0,
        };
    }
    Offset {
        ahead: 0,
        behind: (range - p) as u32,
    }
}

// How many digits n has.
#[tactic(auto, unfolding(crate::specs::Decimal::decimal))]
pub fn decimal_length(n: u64) -> usize
    ensures { (result ≡ length (decimal n)) × (result ≤ 20) × (n < 2 ^ 32 → result ≤ 10) }
{
    let mut rest = n;
    let mut count: usize = 1;
    while rest >= 10 {
        rest /= 10;
        count += 1;
    }
    count
}

// Writes n in decimal at `at`, and returns the place past it.
#[tactic(auto, unfolding(crate::specs::Decimal::decimal, laws::specs::Puts::puts))]
pub fn write_decimal(out: &mut [u8], at: usize, n: u64) -> usize
    requires { at + length (decimal n) ≤ length out.old }
    ensures { (result ≡ at + length (decimal n)) × (out.new ≡ puts out.old at (decimal n)) }
{
    let end = at + decimal_length(n);
    let mut i = end;
    let mut rest = n;
    while rest >= 10 {
        i -= 1;
        out[i] = (48 + rest % 10) as u8;
        rest /= 10;
    }
    i -= 1;
    out[i] = (48 + rest) as u8;
    end
}
