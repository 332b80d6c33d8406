//! What is written of a judged text for a person.

use json_answers::lines::write_examined;
use json_answers::{Examined, Verdict};
use json_listing::listing::write_listing;
use json_places::Spot;
use std::alloc::Global;
use std::fmt;

/// Writes the verdict of a text for a person, with the place of a fault; and if it is asked for, a listing of what was
/// refused. There is no newline at the end.
///
/// An Err is that of the writer, or out of memory.
pub(crate) fn write_answered<W: fmt::Write>(
    alloc: Global,
    out: &mut W,
    examined: &Examined,
    is_listed: bool,
) -> fmt::Result {
    write_examined(alloc, out, examined)?;
    match (&examined.verdict, &examined.refused, examined.found()) {
        (Verdict::Refused(fault), Some(refused), Some(found))
            if is_listed && !matches!(found.spot, Spot::Misfit) => {
            out.write_str("\n")?;
            write_listing(alloc, out, &refused.module, fault, found)
        }
        _ => Ok(()),
    }
}
