// What is judged of a scene after its composed form is known, before anything is written: where its chain leads, and whether the lent
// buffers have room.
ghost use Rattle.std.specs.Prelude.{◌≡◌};
ghost use Rattle.laws.specs.Out.{and_then};
ghost use Rattle.image.specs.Sound.{FormSound};
ghost use Rattle.props.specs.Chain.{entries_at};
ghost use Rattle.props.specs.inner.Judged.{Judged};
ghost use Rattle.plans.specs.inner.ChainPlan.{current_for, current_of};

use crate::chain_plan::{ChainPlan, plan_chain};
use image::Form;
use laws::Refusal;
use props::Chain;
use stages::Current;

// Where the composed record of a form lies, by what the chain's plan says. Refusals: the plan's; 17 output or spare shorter than the
// longest record.
#[tactic(auto, unfolding(crate::specs::inner::ChainPlan::current_for, laws::specs::Out::and_then, laws::specs::Out::refuse))]
fn place_first(
    plan: Result<ChainPlan, Refusal>,
    m: Form,
    output: usize,
    spare: usize,
) -> Result<Current, Refusal>
    requires { FormSound m }
    ensures { result ≡ and_then plan (current_for output spare m) }
{
    let k = plan?;
    if output < k.longest || spare < k.longest {
        return Err(Refusal::ROOM);
    }
    Ok(Current {
        size: planes::record_size(m),
        inside: k.even,
    })
}

// Where the composed record of a form lies, for a chain that was judged, output and spare of so many bytes: the record's size, and
// whether it is drawn in output. Refusals: the entries' in turn; 17 output or spare shorter than the longest of the composed and
// step records.
pub fn plan_scene(
    s: &[u8],
    chain: Chain,
    essential_only: bool,
    m: Form,
    output: usize,
    spare: usize,
) -> Result<Current, Refusal>
    requires { Judged s.now chain × FormSound m }
    ensures { result ≡ and_then (entries_at chain.count s.now chain.first) (λ es. current_of es essential_only m output spare) }
{
    place_first(plan_chain(s, chain, essential_only, m), m, output, spare)
}
