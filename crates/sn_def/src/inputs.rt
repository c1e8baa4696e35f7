//! The inputs of a unit line.
ghost use Rattle.std.specs.Prelude.{◌≡◌, Some};
ghost use Rattle.sn_def.specs.Reading.{mark_at, literal_at, name_at, input_at, inputs_at};
ghost use Rattle.sn_def.specs.Answers.{Gives, texts};

use crate::draft::Draft;
use crate::fault::{DefKind, Refused};
use crate::table::Mark;
use crate::unit::{Input, Inputs};
use sn_fixed::literal;
use std::alloc::Global;

/// What a unit asks of its input number `at`.
fn mark_at(marks: &[Mark], at: usize) -> Mark
    ensures { result ≡ mark_at marks.now at }
{
    marks.get(at).copied().unwrap_or(Mark::Signal)
}

/// The input that a literal is.
fn literal_input(mark: Mark, value: i32) -> Result<Input, DefKind>
    ensures { result ≡ literal_at mark value }
{
    match mark {
        Mark::Longest => {
            if value < 0 || value > 60_000 {
                return Err(DefKind::Constant);
            }
            Ok(Input::Literal(value))
        }
        _ => Ok(Input::Literal(value)),
    }
}

/// The input that a name is.
fn named_input(mark: Mark, input: Option<Input>) -> Result<Input, DefKind>
    ensures { result ≡ name_at mark input }
{
    match input {
        None => Err(DefKind::Input),
        Some(input) => match mark {
            Mark::Signal => Ok(input),
            Mark::Index => match input {
                Input::Wire(_) => Err(DefKind::Index),
                _ => Ok(input),
            },
            _ => Err(DefKind::Constant),
        },
    }
}

/// The input that a field is.
#[tactic(auto, unfolding(crate::specs::Reading::input_at))]
fn input<'a>(draft: &Draft<'a>, mark: Mark, field: &'a [u8]) -> Result<Input, DefKind>
    ensures { result ≡ input_at draft.now mark field.now }
{
    match literal(field) {
        Some(value) => literal_input(mark, value),
        None => named_input(mark, draft.find(field)),
    }
}

/// The inputs of a unit line.
pub(crate) fn inputs<'a>(
    alloc: Global,
    draft: &Draft<'a>,
    marks: &[Mark],
    fields: &[&'a [u8]],
) -> Result<Inputs, Refused>
    ensures { Gives (λ x. x) result (inputs_at draft.now marks.now 0 (texts fields.now)) }
{
    let mut inputs = Vec::new(alloc);
    for (at, field) in fields.iter().enumerate() {
        inputs.push(input(draft, mark_at(marks, at), field)?)?;
    }
    Ok(Inputs::from_vec(inputs))
}
