// Where a chain leads, by forms alone: the form it ends with, the longest record on the way, whether it draws an even number of
// times, and whether its last drawing goes on.
ghost use Rattle.std.specs.Prelude.{◌≡◌, not};
ghost use Rattle.laws.specs.Out.{and_then};
ghost use Rattle.laws.specs.Pick.{pick};
ghost use Rattle.image.specs.Sound.{FormSound};
ghost use Rattle.props.specs.Chain.{applies, entries_at};
ghost use Rattle.props.specs.inner.Judged.{Judged};
ghost use Rattle.stages.specs.inner.Held.{begins, shown_after};
ghost use Rattle.plans.specs.inner.ChainPlan.{chain_plan_start, chain_plan_after, chain_plan_of};

use image::Form;
use laws::{Item, Refusal};
use props::{Chain, Property, PropertyEntry};
use stages::{form_after, is_held, is_move};

#[derive(Clone, Copy)]
pub struct ChainPlan {
    pub form: Form,
    pub longest: usize,
    pub even: bool,
    pub shown: bool,
}

// Whether a property begins a drawing.
#[tactic(auto, unfolding(stages::specs::inner::Held::begins))]
fn begins_drawing(property: Property, m: Form, shown: bool) -> bool
    ensures { result ≡ begins property m shown }
{
    is_move(property) && !(shown && is_held(property, m))
}

// Whether a drawing goes on after a property.
#[tactic(auto, unfolding(stages::specs::inner::Held::shown_after, laws::specs::Pick::pick))]
fn shown_after(property: Property, m: Form, shown: bool) -> bool
    ensures { result ≡ shown_after property m shown }
{
    if is_move(property) {
        is_held(property, m)
    } else {
        shown
    }
}

#[tactic(auto, unfolding(laws::specs::Pick::pick))]
fn flip(b: bool, over: bool) -> bool
    ensures { result ≡ pick over (not b) b }
{
    if over { !b } else { b }
}

impl ChainPlan {
    // The composed form.
    #[tactic(auto, unfolding(crate::specs::inner::ChainPlan::chain_plan_start))]
    fn new(m: Form) -> ChainPlan
        requires { FormSound m }
        ensures { result ≡ chain_plan_start m }
    {
        ChainPlan {
            form: m,
            longest: planes::record_size(m),
            even: true,
            shown: false,
        }
    }

    // After a property.
    #[tactic(auto, unfolding(crate::specs::inner::ChainPlan::chain_plan_after, laws::specs::Out::and_then))]
    fn after(self, property: Property) -> Result<ChainPlan, Refusal>
        requires { FormSound self.form }
        ensures { result ≡ chain_plan_after property self }
    {
        let m = form_after(self.form, property)?;
        Ok(ChainPlan {
            form: m,
            longest: self.longest.max(planes::record_size(m)),
            even: flip(self.even, begins_drawing(property, self.form, self.shown)),
            shown: shown_after(property, self.form, self.shown),
        })
    }

    // After an entry: under the flag a property that is not essential is skipped.
    #[tactic(auto, unfolding(props::specs::Chain::applies, laws::specs::Pick::pick))]
    fn after_entry(self, entry: PropertyEntry, essential_only: bool) -> Result<ChainPlan, Refusal>
        requires { FormSound self.form }
        ensures { result ≡ pick (applies essential_only entry) (chain_plan_after entry.property self) (Ok self) }
    {
        if !essential_only || entry.essential {
            self.after(entry.property)
        } else {
            Ok(self)
        }
    }
}

// Where the entries of a chain that was judged lead from a composed form. Refusals: the entries' in turn, with their index.
pub fn plan_chain(
    s: &[u8],
    chain: Chain,
    essential_only: bool,
    m: Form,
) -> Result<ChainPlan, Refusal>
    requires { Judged s.now chain × FormSound m }
    ensures { result ≡ and_then (entries_at chain.count s.now chain.first) (λ es. chain_plan_of es essential_only m) }
{
    let Chain { count, first } = chain;
    let mut next = first;
    let mut reached = ChainPlan::new(m);
    for i in 0..count {
        let (entry, past) = props::read_entry(s, next)?;
        match reached.after_entry(entry, essential_only) {
            Err(e) => return Err(e.about(Item::Entry(i as u64))),
            Ok(z) => reached = z,
        }
        next = past;
    }
    Ok(reached)
}
