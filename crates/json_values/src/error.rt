//! Why a document can't be read.

ghost use Rattle.std.specs.Prelude.{◌≡◌};
ghost use Rattle.json_values.specs.Failures.{IsUnreadable};
ghost use Rattle.json_values.specs.declared.error.ReadError.TheVariants.{Memory};

use json_nodes::Step;
use std::alloc::{AllocError, AllocFailed, Global};
use std::fmt;

/// Where reading stopped, and what was expected there.
#[derive(Debug, Drop)]
pub struct Unreadable {
    /// Of the document it quotes a field that is one too many, and nothing else.
    pub expected: String,
    /// The way from the whole document to the value that was being read, the last step first.
    pub steps: Vec<Step>,
}

/// Why nothing was read.
#[derive(Debug, Drop)]
pub enum ReadError {
    Unreadable(Unreadable),
    Memory,
}

impl ReadError {
    /// This was expected of the value that is being read; or out of memory.
    pub fn expected(alloc: Global, expected: &str) -> Self {
        match String::from_str(alloc, expected) {
            Ok(expected) => ReadError::told(alloc, expected),
            Err(_) => ReadError::Memory,
        }
    }

    /// The same of a text that was made for it.
    pub(crate) fn told(alloc: Global, expected: String) -> Self {
        ReadError::Unreadable(Unreadable {
            expected,
            steps: Vec::new(alloc),
        })
    }

    /// The error of a value inside the one that is being read, to which this step leads; or out of memory.
    pub fn within(self, step: Step) -> Self
        ensures { IsUnreadable result → IsUnreadable self }
    {
        match self {
            ReadError::Unreadable(
                Unreadable {
                    expected,
                    mut steps,
                },
            ) => match steps.push(step) {
                Ok(()) => ReadError::Unreadable(Unreadable { expected, steps }),
                Err(_) => ReadError::Memory,
            },
            ReadError::Memory => ReadError::Memory,
        }
    }
}

impl From<AllocError> for ReadError {
    ghost from_gives = { λ _ e. e ≡ Memory };

    fn from(_e: AllocError) -> Self {
        ReadError::Memory
    }
}

impl<T: Drop> From<AllocFailed<T>> for ReadError {
    ghost from_gives = { λ _ e. e ≡ Memory };

    fn from(_e: AllocFailed<T>) -> Self {
        ReadError::Memory
    }
}

/// Writes a slash, and the step.
fn write_step<W: fmt::Write>(step: &Step, f: &mut fmt::Formatter<W>) -> fmt::Result {
    match step {
        Step::Name(name) => write!(f, "/{name}"),
        Step::Index(index) => write!(f, "/{index}"),
    }
}

/// Writes the way from the whole document as a JSON pointer: a slash before each step, and nothing for the whole.
impl fmt::Display for Unreadable {
    fn fmt<W: fmt::Write>(&self, f: &mut fmt::Formatter<W>) -> fmt::Result {
        for step in self.steps.iter().rev() {
            write_step(step, f)?;
        }
        Ok(())
    }
}
