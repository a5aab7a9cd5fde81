// What is handed to `steps`: a picture's width and height, and a chain.
ghost use Rattle.steps_text.specs.inner.Step.{ReadAs};

use image::Size;
use laws::Refusal;
use props::Chain;

#[derive(Clone, Copy)]
pub(crate) struct Input {
    pub size: Size,
    pub chain: Chain,
}

// The chain is judged whole before the sides are.
#[tactic(auto, unfolding(crate::specs::inner::Step::ReadAs, crate::specs::Input::steps_of, numbers::specs::Number::on_number))]
pub(crate) fn read_input(s: &[u8]) -> Result<Input, Refusal>
    ensures { ReadAs s.now result }
{
    let (width, a) = numbers::read_number(s, 0)?;
    let (height, b) = numbers::read_number(s, a)?;
    let chain = props::check_chain(s, b)?;
    let size = Size::judge(width, height)?;
    Ok(Input { size, chain })
}
