//! What is missing in recorded facts, or breaks a law.

use crate::texts::write_length;
use std::fmt;

/// What is missing in the facts about a function, or breaks a law. Lists of an info have their names in `InfoFact`.
#[derive(Clone, Copy, PartialEq, Eq, Debug)]
pub enum Shortage {
    /// The list of the facts of functions, or of entry points, has no item for it.
    NoFact {
        found: usize,
        wanted: usize,
    },
    /// `types` hasn't one item for each expression.
    Types {
        found: usize,
        wanted: usize,
    },
    /// `uses` hasn't one item for each global.
    Uses {
        found: usize,
        wanted: usize,
    },
    /// In `types` that of this expression names a type which the module, with `below` types, hasn't.
    UnknownType {
        expression: usize,
        ty: usize,
        below: usize,
    },
    /// In `types` that of this expression is a struct as a value.
    StructValue {
        expression: usize,
    },
    /// `expressions` has fewer items than there are expressions. They are read with EXPRESSIONS alone.
    Expressions {
        found: usize,
        wanted: usize,
    },
}

/// Writes what is short: `types has 3 items, and 5 are wanted`.
impl fmt::Display for Shortage {
    fn fmt<W: fmt::Write>(&self, f: &mut fmt::Formatter<W>) -> fmt::Result {
        match self {
            Shortage::NoFact { found, wanted } => {
                write_length(f, "there is no fact: the list ", *found, *wanted)
            }
            Shortage::Types { found, wanted } => write_length(f, "types ", *found, *wanted),
            Shortage::Uses { found, wanted } => write_length(f, "uses ", *found, *wanted),
            Shortage::UnknownType {
                expression,
                ty,
                below,
            } => write!(
                f,
                "types gives expression {expression} type {ty}, and there are {below} types"
            ),
            Shortage::StructValue { expression } => write!(
                f,
                "types gives expression {expression} a struct as a value, and not by its handle"
            ),
            Shortage::Expressions { found, wanted } => {
                write_length(f, "expressions ", *found, *wanted)
            }
        }
    }
}
