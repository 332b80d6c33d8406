//! For users: the static library for C and Rust, whose exports judge documents into the caller's memory.
//!
//! The file leafnurd.h of include/ declares the exports and says what callers owe. Nothing here keeps anything between
//! two calls, so any number of threads may call at once.
#![tactic(auto)]

mod reply;

ghost use Rattle.std.specs.Prelude.{◌≡◌, length};
ghost use Rattle.leafnurd.specs.Replies.{IsAnswered, laid, version_text};
ghost use Rattle.json_answers.specs.declared.form.Form.TheVariants as forms;

pub use crate::reply::Answer;
use crate::reply::{judge_into, lay};
use json_answers::Form;
use std::alloc::Global;

/// The version of the library, which its programs have too.
const VERSION: &[u8] = b"0.1.0";

/// Judges the document that `text` is, writes its verdict as JSON to the front of `out`, and answers the status and
/// the length of the verdict. Of a verdict that is longer than `out` the beginning is written.
#[unsafe(no_mangle)]
pub extern "C" fn leafnurd_judge(alloc: Global, text: &[u8], out: &mut [u8]) -> Answer
    ensures { IsAnswered forms.Json text.now result out.old out.new }
{
    judge_into(alloc, text, out, Form::Json)
}

/// The same with the text for people, on one or more lines.
#[unsafe(no_mangle)]
pub extern "C" fn leafnurd_explain(alloc: Global, text: &[u8], out: &mut [u8]) -> Answer
    ensures { IsAnswered forms.Lines text.now result out.old out.new }
{
    judge_into(alloc, text, out, Form::Lines)
}

/// Writes the version to the front of `out`, as much of it as there is room for, and answers its length.
#[unsafe(no_mangle)]
pub extern "C" fn leafnurd_version(out: &mut [u8]) -> usize
    ensures length { result ≡ length version_text }
    ensures laid { out.new ≡ laid version_text out.old }
{
    lay(VERSION, out);
    VERSION.len()
}
