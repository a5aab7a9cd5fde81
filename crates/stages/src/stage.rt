// What a chain has reached, and a property more that a sight can hold.
ghost use Rattle.std.specs.Prelude.{◌≡◌};
ghost use Rattle.image.specs.Sound.{FormSound};
ghost use Rattle.sight.specs.Sight.{sight_after};
ghost use Rattle.sight.specs.inner.Bounded.{Bounded};
ghost use Rattle.stages.specs.inner.Held.{form_after};
ghost use Rattle.stages.specs.inner.Stage.{sight_here, stage_start, stage_drawn, Gives, HeldAfter};

use crate::held::form_after;
use image::Form;
use props::Property;
use sight::Sight;

// A record at the start of output (`inside`) or of the spare, and how long it is.
#[derive(Clone, Copy)]
pub struct Current {
    pub size: usize,
    pub inside: bool,
}

// What a chain has reached: the record in a buffer, of form `from`, or what a sight shows of it, of another form.
#[derive(Clone, Copy)]
pub struct Stage {
    pub current: Current,
    pub from: Form,
    pub form: Form,
    pub sight: Sight,
    pub shown: bool,
}

// The composed record, as it lies.
#[tactic(auto, unfolding(crate::specs::inner::Stage::stage_start))]
pub fn stage_start(m: Form, first: Current) -> Stage
    ensures { result ≡ stage_start m first }
{
    Stage {
        current: first,
        from: m,
        form: m,
        sight: Sight::new(m.width, m.height),
        shown: false,
    }
}

// A record that was drawn.
#[tactic(auto, unfolding(crate::specs::inner::Stage::stage_drawn))]
pub fn stage_drawn(t: Stage, size: usize, form: Form) -> Stage
    ensures { result ≡ stage_drawn t size form }
{
    Stage {
        current: Current {
            size,
            inside: !t.current.inside,
        },
        from: form,
        form,
        sight: t.sight,
        shown: false,
    }
}

// The form after a property that is not refused.
pub fn next_form(m: Form, property: Property) -> Form
    requires { FormSound m }
    ensures { Gives (form_after property m) result }
{
    form_after(m, property).unwrap_or(m)
}

// The sight after a property that is not refused.
fn next_sight(s: Sight, property: Property) -> Sight
    requires { Bounded s.area }
    ensures { Gives (sight_after property s) result }
{
    s.after(property).unwrap_or(s)
}

// The sight from which a stage goes on.
#[tactic(auto, unfolding(crate::specs::inner::Stage::sight_here, laws::specs::Pick::pick))]
fn sight_here(t: Stage) -> Sight
    ensures { result ≡ sight_here t }
{
    if t.shown {
        t.sight
    } else {
        Sight::new(t.form.width, t.form.height)
    }
}

// A property that a sight can hold.
pub fn hold(t: Stage, property: Property) -> Stage
    requires { FormSound t.form × Bounded (sight_here t).area }
    ensures { HeldAfter property t result }
{
    Stage {
        form: next_form(t.form, property),
        sight: next_sight(sight_here(t), property),
        shown: true,
        ..t
    }
}
