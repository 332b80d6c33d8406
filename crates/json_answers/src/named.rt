//! Ids of documents in their verdicts.

ghost use Rattle.std.specs.Prelude.{◌≡◌, ◌++◌, OnOk};
ghost use Rattle.json_faults.specs.JsonForm.{Writes};
ghost use Rattle.json_answers.specs.VerdictIds.{id_form, opening};

use crate::verdict::Verdict;
use check_faults::ModuleFault;
use json_document::Id;
use json_faults::to_json::ToJson;
use json_faults::writer::JsonWriter;
use std::alloc::AllocError;
use std::fmt;

/// Writes an id as JSON.
fn put_id(out: &mut JsonWriter, id: &Id) -> Result<(), AllocError>
    ensures { Writes result out.old out.new (id_form id.now) }
{
    match id {
        Id::Text(text) => text.write_json(out),
        Id::Integer(number) => out.signed(*number),
    }
}

/// Begins the object of a verdict: its first field is the id, if there is one, and the next has this name, and its value follows.
pub(crate) fn open_named(
    out: &mut JsonWriter,
    id: &Option<Id>,
    name: &str,
) -> Result<(), AllocError>
    ensures { OnOk result (out.new ≡ out.old ++ opening id.now name.now) }
{
    match id {
        Some(id) => {
            out.open("id")?;
            put_id(out, id)?;
            out.key(name)
        }
        None => out.open(name),
    }
}

/// Writes what a document is called, for a person, before its verdict. Out of memory has no id. An Err is that of the
/// writer.
pub(crate) fn write_id<W: fmt::Write>(
    out: &mut W,
    id: &Option<Id>,
    verdict: &Verdict,
) -> fmt::Result {
    if matches!(verdict, Verdict::Refused(ModuleFault::Memory)) {
        return Ok(());
    }
    match id {
        Some(Id::Text(text)) => {
            let text = text.as_str();
            write!(out, "id {text:?}: ")
        }
        Some(Id::Integer(number)) => write!(out, "id {number}: "),
        None => Ok(()),
    }
}
