// What a call answers in lent words, field by field.
ghost use Rattle.std.specs.Prelude.{◌≡◌, ◌+◌, ◌≤◌, length, set};
ghost use Rattle.laws.specs.Out.{written};
ghost use Rattle.laws.specs.Pick.{pick};
ghost use Rattle.laws.specs.Puts.{puts};
ghost use Rattle.words.specs.Code.{code_of, none_of};
ghost use Rattle.words.specs.Properties.{crop_fields};
ghost use Rattle.words.specs.Read.{form_fields, plane_fields};
ghost use Rattle.words.specs.Spots.{sight_fields, point_words, named_fields};
ghost use Rattle.words.specs.Fill.{fill_fields};

use crate::code::refusal_code;
use fill::Ycbcr;
use image::Form;
use laws::Refusal;
use point::{Named, Point};
use records::Plane;
use sight::Sight;
use sizes::Crop;

// A form's five numbers at the start.
#[tactic(auto, unfolding(laws::specs::Puts::puts, crate::specs::Read::form_fields))]
pub fn put_form(answer: &mut [u64], m: Form) -> usize
    requires { 5 ≤ length answer.old }
    ensures { (result ≡ 5) × (answer.new ≡ puts answer.old 0 (form_fields m)) }
{
    let k = m.format;
    answer[0] = m.width as u64;
    answer[1] = m.height as u64;
    answer[2] = k.chroma as u64;
    answer[3] = k.depth as u64;
    answer[4] = k.alpha as u64;
    5
}

// A plane's three numbers at `at`, and the place past them.
#[tactic(auto, unfolding(laws::specs::Puts::puts, crate::specs::Read::plane_fields))]
pub fn put_plane(answer: &mut [u64], at: usize, q: Plane) -> usize
    requires { at + 3 ≤ length answer.old }
    ensures { (result ≡ at + 3) × (answer.new ≡ puts answer.old at (plane_fields q)) }
{
    answer[at] = q.start as u64;
    answer[at + 1] = q.len as u64;
    answer[at + 2] = q.stride as u64;
    at + 3
}

// Two words at `at`, and the place past them.
pub fn put_words<T: Copy>(answer: &mut [T], at: usize, a: T, b: T) -> usize
    requires { at + 2 ≤ length answer.old }
    ensures { (result ≡ at + 2) × (answer.new ≡ set (set answer.old at a) (at + 1) b) }
{
    answer[at] = a;
    answer[at + 1] = b;
    at + 2
}

// The three samples at the start.
#[tactic(auto, unfolding(laws::specs::Puts::puts, crate::specs::Fill::fill_fields))]
pub fn put_fill(answer: &mut [u16], s: Ycbcr)
    requires { 3 ≤ length answer.old }
    ensures { answer.new ≡ puts answer.old 0 (fill_fields s) }
{
    answer[0] = s.y;
    answer[1] = s.cb;
    answer[2] = s.cr;
}

#[tactic(auto, unfolding(laws::specs::Pick::pick))]
pub fn bit_of(b: bool) -> u32
    ensures { result ≡ pick b 1 0 }
{
    if b { 1 } else { 0 }
}

// What a place names at the start, and the place past it.
pub fn put_named(answer: &mut [u32], named: Named) -> usize
    requires { 4 ≤ length answer.old }
    ensures { (result ≡ 4) × (answer.new ≡ puts answer.old 0 (named_fields named)) }
{
    match named {
        Named::Fill => {
            let a = put_words(answer, 0, 0, 0);
            put_words(answer, a, 0, 0)
        }
        Named::Spot(k) => {
            let a = put_words(answer, 0, 1, k.input);
            put_words(answer, a, k.x, k.y)
        }
    }
}

// A rectangle and a turn at `at`.
pub fn put_sight(answer: &mut [u32], at: usize, s: Sight)
    requires { at + 6 ≤ length answer.old }
    ensures { answer.new ≡ puts answer.old at (sight_fields s) }
{
    let area = s.area;
    let a = put_words(answer, at, area.x, area.y);
    let b = put_words(answer, a, area.width, area.height);
    put_words(answer, b, bit_of(s.exchanged), s.turns);
}

// A rectangle and its margins at the start.
pub fn put_crop(answer: &mut [u32], k: Crop)
    requires { 8 ≤ length answer.old }
    ensures { answer.new ≡ puts answer.old 0 (crop_fields k) }
{
    let r = k.rect;
    let m = k.margins;
    let a = put_words(answer, 0, r.x, r.y);
    let b = put_words(answer, a, r.width, r.height);
    let c = put_words(answer, b, m.left, m.top);
    put_words(answer, c, m.right, m.bottom);
}

// What was found, in 10 words. Refusals: what it was refused for; 17 an answer below 10 words.
pub fn put_point(answer: &mut [u32], found: Result<Point, Refusal>) -> u64
    ensures { (result ≡ code_of (none_of (point_words found (length answer.old))))
        × (answer.new ≡ written (point_words found (length answer.old)) answer.old) }
{
    match found {
        Err(e) => refusal_code(e),
        Ok(p) => {
            if answer.len() < 10 {
                return refusal_code(Refusal::ROOM);
            }
            let a = put_named(answer, p.named);
            put_sight(answer, a, p.sight);
            0
        }
    }
}
