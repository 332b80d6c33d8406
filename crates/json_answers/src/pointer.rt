//! The way to a value of a document, as a JSON pointer.

ghost use Rattle.std.specs.Prelude.{◌≡◌, ◌++◌, IfOk, OnOk, string_bytes};
ghost use Rattle.json_answers.specs.VerdictJson.{pointer_text, step_text};

use json_nodes::Step;
use std::alloc::{AllocError, Global};

/// Appends a slash, and the step.
#[tactic(auto, unfolding(crate::specs::VerdictJson::step_text))]
pub(crate) fn push_step(text: &mut String, step: Step) -> Result<(), AllocError>
    ensures { OnOk result (string_bytes text.new ≡ string_bytes text.old ++ step_text step) }
{
    text.push_str("/")?;
    match step {
        Step::Name(name) => text.push_str(name),
        Step::Index(index) => {
            let mut buffer = itoa::Buffer::new();
            text.push_str(buffer.format(index))
        }
    }
}

/// The pointer of these steps, of which the last comes first. An Err is out of memory.
pub(crate) fn pointer_text(alloc: Global, steps: &[Step]) -> Result<String, AllocError>
    ensures { IfOk result (λ text. string_bytes text ≡ pointer_text steps.now) }
{
    let mut text = String::new(alloc);
    let mut left = steps.len();
    while left > 0 {
        left -= 1;
        push_step(&mut text, steps[left])?;
    }
    Ok(text)
}
