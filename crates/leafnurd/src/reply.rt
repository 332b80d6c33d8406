//! What the exports answer, and how a text is written into the caller's memory.

ghost use Rattle.std.specs.Prelude.{◌≡◌, length};
ghost use Rattle.leafnurd.specs.Replies.{IsAnswered, IsReported, laid};

use json_answers::form::{memory_text, text_of};
use json_answers::verdict::drop_examined;
use json_answers::{Examined, Form};
use json_verdict::examine::examine;
use std::alloc::{AllocError, Global};

/// What a call answers.
#[repr(C)]
#[derive(Clone, Copy)]
pub struct Answer {
    /// 0 accepted, 1 refused, 2 unreadable, 3 out of memory.
    pub status: u32,
    /// How long the verdict is, in bytes. Where that is more than the caller gave, only the beginning was written.
    pub length: usize,
}

/// Writes the text to the front of `out`, as much of it as there is room for.
pub(crate) fn lay(text: &[u8], out: &mut [u8])
    ensures { out.new ≡ laid text.now out.old }
{
    let count = text.len().min(out.len());
    out[..count].copy_from_slice(&text[..count]);
}

/// Writes the text, and answers its length with this status.
fn answer_with(status: u8, text: &[u8], out: &mut [u8]) -> Answer
    ensures status { result.status ≡ status }
    ensures length { result.length ≡ length text.now }
    ensures laid { out.new ≡ laid text.now out.old }
{
    lay(text, out);
    Answer {
        status: u32::from(status),
        length: text.len(),
    }
}

/// Writes the verdict, and answers its status. If there is no memory for its text, both are those of out of memory.
fn report(alloc: Global, examined: &Examined, out: &mut [u8], form: Form) -> Answer
    ensures { IsReported form examined.now.id examined.now.verdict examined.now.misfit result out.old out.new }
{
    match text_of(alloc, examined, form) {
        Ok(text) => answer_with(examined.verdict.status(), text.as_str().as_bytes(), out),
        Err(AllocError) => answer_with(3, memory_text(form), out),
    }
}

/// Judges the document that `text` is, and writes its verdict.
pub(crate) fn judge_into(alloc: Global, text: &[u8], out: &mut [u8], form: Form) -> Answer
    ensures { IsAnswered form text.now result out.old out.new }
{
    let examined = examine(alloc, text);
    let answer = report(alloc, &examined, out, form);
    drop_examined(examined);
    answer
}
