//! For users: judges JSON documents and writes their verdicts, as JSON or for a person; `naga_judge` is the program over it.
//! The verdict of a document is what `check_module` answers for its module, over its facts, with its settings.
#![tactic(auto)]

mod basis;
pub mod examine;
mod find;
pub mod judge;
mod reply;
pub mod run;
mod stream;
mod text;

pub use json_answers::line::json_line;
pub use json_answers::lines::{write_examined, write_lines};
pub use json_answers::{Examined, RefusedModule, Verdict};
