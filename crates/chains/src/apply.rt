// The chain on a composed record, to and fro between the two lent buffers.
ghost use Rattle.std.specs.Prelude.{◌≡◌, false, not, true, ◌-◌, ◌≤◌, ◌++◌, length, take, replicate};
ghost use Rattle.laws.specs.Out.{answer_of, written};
ghost use Rattle.laws.specs.Puts.{puts};
ghost use Rattle.planes.specs.Bytes.{size_of};
ghost use Rattle.stages.specs.inner.Held.{form_after};
ghost use Rattle.chains.specs.inner.Apply.{draws, lying, Ready, chain_bytes, bytes_in, wrote_of, step_run, entry_bytes, record_in, settled_in, Staged, Able, Drawable, Planned, Arrived, Ended, Finished};
ghost use Rattle.stages.specs.inner.Stage.{record_after, stage_bytes, stage_start, Gives, StageSound};

use image::Form;
use laws::Refusal;
use props::{Chain, Property, PropertyEntry};
use records::Picture;
use stages::{Current, Stage, hold, is_held, is_move, next_form, stage_drawn, stage_start};

// A record after a property. Refusals: the record's, the property's, 17.
fn draw_step(record: &[u8], property: Property, out: &mut [u8]) -> Result<usize, Refusal>
    ensures { (result ≡ answer_of (step_run property «record».now (length out.old)))
        × (out.new ≡ written (step_run property «record».now (length out.old)) out.old) }
{
    match property {
        Property::Other => planes::hand_back(record, out),
        Property::Clap(c) => transform::apply_clap(record, c, out),
        Property::Irot(k) => transform::apply_irot(record, k, out),
        Property::Imir(k) => transform::apply_imir(record, k, out),
        Property::Iscl(k) => resample::apply_iscl(record, k, out),
    }
}

// Whether an entry draws: it is applied, and not any other property.
#[tactic(auto, unfolding(crate::specs::inner::Apply::draws, props::specs::Chain::applies))]
fn is_drawn(entry: PropertyEntry, essential_only: bool) -> bool
    ensures { result ≡ draws essential_only entry }
{
    (!essential_only || entry.essential) && is_move(entry.property)
}

// The record at the start of one buffer after a property, drawn into another. Answers its length, 0 where it is refused.
fn draw_into(from: &[u8], size: usize, property: Property, to: &mut [u8]) -> usize
    requires { size ≤ length from.now }
    ensures { (result ≡ wrote_of (answer_of (step_run property (take size from.now) (length to.old))))
        × (to.new ≡ written (step_run property (take size from.now) (length to.old)) to.old) }
{
    draw_step(&from[..size], property, to).unwrap_or(0)
}

// What a sight shows of the record at the start of one buffer, drawn into another. Answers its length.
fn show_into(from: &[u8], t: Stage, to: &mut [u8]) -> usize
    requires { StageSound t (take t.current.size from.now) × (t.shown ≡ true) × (t.current.size ≤ length from.now) × (size_of t.form ≤ length to.old) }
    ensures { (result ≡ size_of t.form) × (to.new ≡ puts to.old 0 (stage_bytes t (take t.current.size from.now))) }
{
    let picture = Picture {
        record: &from[..t.current.size],
        frame: planes::tight(t.from),
    };
    view::draw_sight(to, picture, t.form, t.sight)
}

// What is shown is drawn into the other buffer.
fn settle(t: Stage, output: &mut [u8], spare: &mut [u8]) -> Stage
    requires { Staged t output.old spare.old }
    ensures { Arrived (stage_bytes t (record_in t output.old spare.old)) output.old spare.old result output.new spare.new
        × (result.shown ≡ false) × (result.form ≡ t.form) × (result.current.inside ≡ settled_in t) }
{
    if !t.shown {
        t
    } else if t.current.inside {
        stage_drawn(t, show_into(output, t, spare), t.form)
    } else {
        stage_drawn(t, show_into(spare, t, output), t.form)
    }
}

// A property drawn into the other buffer.
fn draw_property(t: Stage, property: Property, output: &mut [u8], spare: &mut [u8]) -> Stage
    requires { Drawable property t output.old spare.old }
    ensures { Arrived (bytes_in (record_after property (record_in t output.old spare.old))) output.old spare.old result output.new spare.new
        × (result.shown ≡ false) × Gives (form_after property t.form) result.form × (result.current.inside ≡ not t.current.inside) }
{
    let m = next_form(t.form, property);
    let size = t.current.size;
    if t.current.inside {
        stage_drawn(t, draw_into(output, size, property, spare), m)
    } else {
        stage_drawn(t, draw_into(spare, size, property, output), m)
    }
}

// The next stage: a property that a sight can hold is drawn with those after it, any other at once.
fn apply_entry(
    t: Stage,
    entry: PropertyEntry,
    essential_only: bool,
    output: &mut [u8],
    spare: &mut [u8],
) -> Stage
    requires { Able essential_only entry t output.old spare.old }
    ensures { Arrived (bytes_in (entry_bytes essential_only entry (stage_bytes t (record_in t output.old spare.old)))) output.old spare.old result output.new spare.new
        × Planned essential_only entry t result }
{
    if !is_drawn(entry, essential_only) {
        return t;
    }
    let property = entry.property;
    if is_held(property, t.form) {
        hold(t, property)
    } else {
        let u = settle(t, output, spare);
        draw_property(u, property, output, spare)
    }
}

// A chain that was judged, on a record of a form that lies so that the last record ends in output. Answers its length.
fn apply_chain(
    s: &[u8],
    chain: Chain,
    essential_only: bool,
    m: Form,
    output: &mut [u8],
    spare: &mut [u8],
    first: Current,
) -> usize
    requires { Ready s.now chain.count chain.first essential_only (stage_start m first) output.old spare.old }
    ensures { Ended result (chain_bytes s.now chain.count chain.first essential_only (lying first.inside first.size output.old spare.old)) output.old output.new spare.old spare.new }
{
    let count = chain.count;
    let mut next = chain.first;
    let mut t = stage_start(m, first);
    for _i in 0..count {
        let (entry, past) = props::read_entry(s, next).unwrap();
        t = apply_entry(t, entry, essential_only, output, spare);
        next = past;
    }
    settle(t, output, spare).current.size
}

// Zeros from a place on.
fn clear(out: &mut [u8], from: usize)
    ensures { out.new ≡ take from out.old ++ replicate (length out.old - from) 0 }
{
    if from < out.len() {
        out[from..].fill(0);
    }
}

// The chain on a composed record of a form: the last record at the start of output, zero past it, and zero all over the spare.
pub fn finish_scene(
    s: &[u8],
    chain: Chain,
    essential_only: bool,
    m: Form,
    output: &mut [u8],
    spare: &mut [u8],
    first: Current,
) -> Result<usize, Refusal>
    requires { Ready s.now chain.count chain.first essential_only (stage_start m first) output.old spare.old }
    ensures { Finished result (chain_bytes s.now chain.count chain.first essential_only (lying first.inside first.size output.old spare.old)) output.old output.new spare.old spare.new }
{
    let size = apply_chain(s, chain, essential_only, m, output, spare, first);
    clear(output, size);
    clear(spare, 0);
    Ok(size)
}
