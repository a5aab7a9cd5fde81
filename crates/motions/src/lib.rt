// Crop, quarter turns and mirrors as moves of a picture's planes.
#![tactic(auto)]

ghost use Rattle.std.specs.Prelude.{◌≡◌, ◌≤◌};
ghost use Rattle.image.specs.Sound.{FormSound};
ghost use Rattle.motions.specs.inner.Moves.{form_with, end_axis, crop_move, quarter_move, half_move, mirror_move, still_move, turn_form};
ghost use Rattle.motions.specs.Turn.{quarter_of};

use image::{Form, PixelFormat};
use moves::{Axis, Move};
use props::Irot;
use sizes::CropRect;

#[tactic(auto, unfolding(crate::specs::inner::Moves::form_with, laws::specs::Pick::pick))]
fn form_with(promoted: bool, m: Form) -> Form
    ensures { result ≡ form_with promoted m }
{
    if promoted { m.as_444() } else { m }
}

#[tactic(auto, unfolding(crate::specs::inner::Moves::crop_move, crate::specs::inner::Moves::crop_with))]
pub fn crop_move(m: Form, r: CropRect) -> Move
    ensures { result ≡ crop_move m r }
{
    let x_odd = image::is_odd(r.x) || image::is_odd(r.width);
    let y_odd = image::is_odd(r.y) || image::is_odd(r.height);
    let promoted = m.format.needs_444(x_odd, y_odd);
    Move {
        form: form_with(promoted, m).sized(r.width, r.height),
        promoted,
        swapped: false,
        across: Axis {
            from: r.x as usize,
            back: false,
        },
        down: Axis {
            from: r.y as usize,
            back: false,
        },
    }
}

// From one end of n places to the other.
#[tactic(auto, unfolding(crate::specs::inner::Moves::end_axis, laws::specs::Pick::pick))]
fn end_axis(back: bool, n: u32) -> Axis
    requires { 1 ≤ n }
    ensures { result ≡ end_axis back n }
{
    Axis {
        from: if back { n as usize - 1 } else { 0 },
        back,
    }
}

// A quarter turn: the columns run down, from the bottom where `up`, and the rows across, from the right where `left`.
#[tactic(auto, unfolding(crate::specs::inner::Moves::quarter_move, crate::specs::inner::Moves::quarter_with, crate::specs::Turn::lopsided))]
pub fn quarter_move(m: Form, left: bool, up: bool) -> Move
    requires { FormSound m }
    ensures { result ≡ quarter_move m left up }
{
    let lopsided = m.format.chroma == PixelFormat::YUV422;
    let x_odd = lopsided || image::is_odd(m.width);
    let y_odd = lopsided || image::is_odd(m.height);
    let promoted = m.format.needs_444(x_odd, y_odd);
    Move {
        form: form_with(promoted, m).sized(m.height, m.width),
        promoted,
        swapped: true,
        across: end_axis(left, m.width),
        down: end_axis(up, m.height),
    }
}

#[tactic(auto, unfolding(crate::specs::inner::Moves::half_move, crate::specs::inner::Moves::half_with))]
pub fn half_move(m: Form) -> Move
    requires { FormSound m }
    ensures { result ≡ half_move m }
{
    let promoted = m
        .format
        .needs_444(image::is_odd(m.width), image::is_odd(m.height));
    Move {
        form: form_with(promoted, m).sized(m.width, m.height),
        promoted,
        swapped: false,
        across: end_axis(true, m.width),
        down: end_axis(true, m.height),
    }
}

#[tactic(auto, unfolding(crate::specs::inner::Moves::mirror_move))]
pub fn mirror_move(m: Form, sideways: bool) -> Move
    requires { FormSound m }
    ensures { result ≡ mirror_move m sideways }
{
    Move {
        form: m,
        promoted: false,
        swapped: false,
        across: end_axis(sideways, m.width),
        down: end_axis(!sideways, m.height),
    }
}

// A picture as it is: nothing is promoted, no axes are swapped, and none runs back.
#[tactic(auto, unfolding(crate::specs::inner::Moves::still_move))]
pub fn still_move(m: Form) -> Move
    requires { FormSound m }
    ensures { result ≡ still_move m }
{
    let still = false;
    Move {
        form: m,
        promoted: still,
        swapped: still,
        across: end_axis(still, m.width),
        down: end_axis(still, m.height),
    }
}

// The form of a crop.
pub fn crop_form(m: Form, r: CropRect) -> Form
    ensures { result ≡ (crop_move m r).form }
{
    crop_move(m, r).form
}

// The form of a turn.
#[tactic(auto, unfolding(crate::specs::inner::Moves::turn_form, crate::specs::Turn::quarter_of, laws::specs::Pick::pick))]
pub fn turn_form(m: Form, irot: Irot) -> Form
    requires { FormSound m }
    ensures { result ≡ turn_form m (quarter_of irot.angle) }
{
    match irot.angle % 4 {
        0 => m,
        1 => quarter_move(m, true, false).form,
        2 => half_move(m).form,
        _ => quarter_move(m, false, true).form,
    }
}
