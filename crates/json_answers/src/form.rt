//! The text of a verdict in a form, and that of out of memory.

ghost use Rattle.std.specs.Prelude.{None, IfOk, string_bytes};
ghost use Rattle.check_faults.specs.declared.module.ModuleFault.TheVariants as faults;
ghost use Rattle.json_answers.specs.Texts.{IsTextOf};
ghost use Rattle.json_answers.specs.declared.verdict.Verdict.TheVariants as verdicts;

use crate::line::json_line;
use crate::lines::write_examined;
use crate::verdict::Examined;
use std::alloc::{AllocError, Global};

/// How verdicts are written: lines for a person, or JSON.
#[derive(Clone, Copy, PartialEq, Eq, Debug)]
pub enum Form {
    Lines,
    Json,
}

/// The verdict for a person. A write to a text fails only out of memory.
fn lines_text(alloc: Global, examined: &Examined) -> Result<String, AllocError> {
    let mut text = String::new(alloc);
    match write_examined(alloc, &mut text, examined) {
        Ok(()) => Ok(text),
        Err(_) => Err(AllocError),
    }
}

/// The text of a verdict, without a newline at its end. An Err is out of memory.
pub fn text_of(alloc: Global, examined: &Examined, form: Form) -> Result<String, AllocError>
    ensures { IfOk result (λ text. IsTextOf form examined.now.id examined.now.verdict examined.now.misfit (string_bytes text)) }
{
    match form {
        Form::Json => json_line(alloc, examined),
        Form::Lines => lines_text(alloc, examined),
    }
}

/// The text of out of memory.
pub fn memory_text(form: Form) -> &'static [u8]
    ensures { IsTextOf form None (verdicts.Refused faults.Memory) None result.now }
{
    match form {
        Form::Json => b"\"memory\"",
        Form::Lines => b"memory",
    }
}
