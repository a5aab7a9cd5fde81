// Where an input lies along one axis of a plane of the canvas.
ghost use Rattle.std.specs.Prelude.{◌≡◌, ◌<◌, ◌≤◌, ◌^◌};
ghost use Rattle.laws.specs.Pick.{pick};
ghost use Rattle.image.specs.Format.{side_of};
ghost use Rattle.opaque.specs.inner.Window.{stretch_of, window_of};

use numbers::Offset;

// How many samples begin before a place.
#[tactic(auto, unfolding(image::specs::Format::side_of))]
fn before(half: bool, n: usize) -> usize
    requires { n < 2 ^ 40 }
    ensures { result ≡ side_of half n }
{
    if half { (n + 1) / 2 } else { n }
}

// The samples along an axis that an input of a side covers: from, and up to but not including.
#[derive(Clone, Copy)]
pub struct Stretch {
    pub from: usize,
    pub to: usize,
}

#[tactic(auto, unfolding(crate::specs::inner::Window::stretch_of))]
pub fn reach(half: bool, o: Offset, side: u32) -> Stretch
    ensures { result ≡ stretch_of half o side }
{
    let ahead = o.ahead as usize;
    let behind = o.behind as usize;
    Stretch {
        from: before(half, ahead.saturating_sub(behind)),
        to: before(half, (ahead + side as usize).saturating_sub(behind)),
    }
}

// From a sample to the next, so many places.
#[tactic(auto, unfolding(laws::specs::Pick::pick))]
pub fn step_of(half: bool) -> usize
    ensures { result ≡ pick half 2 1 }
{
    if half { 2 } else { 1 }
}

// The same within a plane of so many samples: the first that is covered, how many, and the input's place there.
#[derive(Clone, Copy)]
pub(crate) struct Window {
    pub at: usize,
    pub count: usize,
    pub spot: usize,
}

pub(crate) fn window_of(half: bool, o: Offset, side: u32, samples: usize) -> Window
    requires { samples ≤ 2 ^ 31 }
    ensures { result ≡ window_of half o side samples }
{
    let s = reach(half, o, side);
    let at = s.from.min(samples);
    let end = s.to.min(samples);
    Window {
        at,
        count: end.saturating_sub(at),
        spot: (at * step_of(half) + o.behind as usize).saturating_sub(o.ahead as usize),
    }
}
