//! What is wrong, in words for a person.

mod entry;
mod expression;
mod function;
mod interface;

use std::fmt;

/// An error that has a sentence for a person.
pub trait Explain: fmt::Debug {
    /// What is wrong, without the values of the fields, in words that can follow a colon.
    fn sentence(&self) -> &'static str;

    /// Writes the sentence, and after a colon that of the error inside, if there is one. It allocates nothing.
    fn explain<W: fmt::Write>(&self, writer: &mut W) -> fmt::Result {
        writer.write_str(self.sentence())
    }
}

/// Writes a colon and the sentence of an inner error. It is for an outer error, which has written its own sentence. An Err is
/// that of the writer.
pub fn explain_inside<E: Explain, W: fmt::Write>(error: &E, writer: &mut W) -> fmt::Result {
    writer.write_str(": ")?;
    error.explain(writer)
}
