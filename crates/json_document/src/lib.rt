//! Reads a JSON text as a document: settings, a module and the facts about it ([`read_text`]), each value where it lies.
//! Part of `naga_judge`; no promise to users.
#![tactic(auto)]

mod document;
mod entry_points;
mod errors;
mod facts;
mod functions;
mod id;
mod module;
mod text;
mod types;

pub use crate::document::{Document, Known};
pub use crate::id::Id;
pub use crate::text::{MOST_BYTES, Reading, read_text};
pub use json::Scratch;
pub use json_values::{ReadError, Unreadable};
