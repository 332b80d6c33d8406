//! The reply to a text: its verdict, written in a form.

ghost use Rattle.std.specs.Prelude.{ℕ, List, None, IfOk, string_bytes};
ghost use Rattle.check_faults.specs.declared.module.ModuleFault.TheVariants as faults;
ghost use Rattle.json_answers.specs.declared.verdict.Verdict.TheVariants as verdicts;
ghost use Rattle.json_verdict.specs.Runs.{IsLineOf, Replies};
ghost use Rattle.json_verdict.specs.walk.Stream.{Holds, WritesLineOrMemory};

use crate::text::Bytes;
use json_answers::form::text_of;
use json_answers::verdict::drop_examined;
use json_answers::{Examined, Form};
use std::alloc::{AllocError, Global};
use std::io;
use std::io::Write;

/// The line of a verdict: its text, with a newline at the end. An Err is out of memory.
fn line_of(alloc: Global, examined: &Examined, form: Form) -> Result<String, AllocError>
    ensures { IfOk result (λ line. IsLineOf form examined.now.id examined.now.verdict examined.now.misfit (string_bytes line)) }
{
    let mut line = text_of(alloc, examined, form)?;
    match line.push_str("\n") {
        Ok(()) => Ok(line),
        Err(refused) => Err(refused),
    }
}

/// The line of out of memory.
fn memory_line(form: Form) -> &'static [u8]
    ensures { IsLineOf form None (verdicts.Refused faults.Memory) None result.now }
{
    match form {
        Form::Lines => b"memory\n",
        Form::Json => b"\"memory\"\n",
    }
}

/// Writes a verdict, and answers its exit status. If there is no memory for its text, both are those of out of memory.
fn reply<W: Write>(alloc: Global, writer: &mut W, examined: &Examined, form: Form) -> io::Result<u8>
    ensures { IfOk result (λ status. WritesLineOrMemory form examined.now.id examined.now.verdict
        examined.now.misfit (W.contents writer.old) (W.contents writer.new) status) }
{
    match line_of(alloc, examined, form) {
        Ok(line) => {
            writer.write_all(line.as_str().as_bytes())?;
            Ok(examined.verdict.status())
        }
        Err(AllocError) => {
            writer.write_all(memory_line(form))?;
            Ok(3)
        }
    }
}

/// Judges a text, writes its verdict, and answers the exit status.
pub(crate) fn reply_to<W: Write>(
    alloc: Global,
    writer: &mut W,
    bytes: &mut Bytes,
    form: Form,
) -> io::Result<u8>
    ensures { IfOk result (λ status. (text : List ℕ) → Holds bytes.old text →
        Replies form text (W.contents writer.old) (W.contents writer.new) status) }
{
    let examined = bytes.examine(alloc);
    let replied = reply(alloc, writer, &examined, form);
    drop_examined(examined);
    replied
}
