// A record's picture drawn as a sight shows it: one rectangle of it, exchanged or not, then turned, in one pass.
#![tactic(auto)]

ghost use Rattle.std.specs.Prelude.{◌≡◌, ◌+◌, ◌<◌, ◌^◌, ◌≤◌, length};
ghost use Rattle.laws.specs.Puts.{puts};
ghost use Rattle.planes.specs.Bytes.{decode, encode, size_of};
ghost use Rattle.view.specs.inner.View.{Shown, runs_left, runs_up, shown, sight_axis, sight_move};

use image::Form;
use moves::{Axis, Move};
use records::Picture;
use sight::Sight;

// So many places from one on, or from the last of them back.
#[tactic(auto, unfolding(crate::specs::inner::View::sight_axis, laws::specs::Pick::pick))]
fn sight_axis(back: bool, from: u32, size: u32) -> Axis
    requires { (1 ≤ size) × (from + size < 2 ^ 32) }
    ensures { result ≡ sight_axis back from size }
{
    let from = from as usize;
    Axis {
        from: if back { from + size as usize - 1 } else { from },
        back,
    }
}

// Whether the columns of a sight's rectangle are walked from the right.
#[tactic(auto, unfolding(crate::specs::inner::View::runs_left, crate::specs::inner::View::turns_left, motions::specs::Turn::quarter_of, laws::specs::Pick::pick))]
fn runs_left(s: Sight) -> bool
    ensures { result ≡ runs_left s }
{
    let turns = s.turns % 4;
    if turns == 1 || turns == 2 {
        !s.exchanged
    } else {
        s.exchanged
    }
}

// Whether its rows are walked from the bottom.
#[tactic(auto, unfolding(crate::specs::inner::View::runs_up, crate::specs::inner::View::turns_up, motions::specs::Turn::quarter_of, laws::specs::Pick::pick))]
fn runs_up(s: Sight) -> bool
    ensures { result ≡ runs_up s }
{
    s.turns % 4 >= 2
}

// The move of a picture of one form to what a sight shows of it, in another.
#[tactic(auto, unfolding(crate::specs::inner::View::sight_move, motions::specs::Place::swaps, motions::specs::Turn::quarter_of, laws::specs::Pick::pick))]
fn sight_move(m: Form, n: Form, s: Sight) -> Move
    requires { Shown m n s }
    ensures { result ≡ sight_move m n s }
{
    let area = s.area;
    Move {
        form: n,
        promoted: m.format.chroma != n.format.chroma,
        swapped: s.turns % 2 == 1,
        across: sight_axis(runs_left(s), area.x, area.width),
        down: sight_axis(runs_up(s), area.y, area.height),
    }
}

// What a sight shows of a record's picture, in a tight record of that form at the start. Answers its length.
pub fn draw_sight(out: &mut [u8], picture: Picture<'_>, n: Form, s: Sight) -> usize
    requires { Shown picture.frame.form n s × (size_of n ≤ length out.old) }
    ensures { (result ≡ size_of n) × (out.new ≡ puts out.old 0 (encode (shown n s (decode picture.entry.«record».now picture.entry.frame)))) }
{
    moves::write_moved(out, picture, sight_move(picture.frame.form, n, s))
}
