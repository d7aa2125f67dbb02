// What the viewer answers to an input.
ghost use Rattle.round_viewer.specs.Lines.{text};
ghost use Rattle.round_viewer.specs.Views.{Answers, Views};

use crate::request::parse;
use engine::refusal::Refusal;
use gimli::rounds::first_rounds;
use gimli::state::State;

// The answer to an input, to be displayed: every byte of the output.
#[derive(Clone, Copy)]
pub struct Screen(pub Result<State, Refusal>);

// The state that the input asks for.
fn answer(input: &[u8]) -> Result<State, Refusal>
    ensures { Answers input.now result }
{
    let request = parse(input).ok_or(Refusal::ViewerInput)?;
    let start = State::from_bytes(&request.string).ok_or(Refusal::ViewerInput)?;
    Ok(first_rounds(start, request.rounds))
}

// What to show for an input, whatever it is.
pub fn view(input: &[u8]) -> Screen
    ensures { Views input.now (text result) }
{
    Screen(answer(input))
}
