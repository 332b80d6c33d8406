//! The notation in which a case is written.

ghost use Rattle.std.specs.Prelude.{◌≡◌, ℕ, List, IfOk, IsErrOf};
ghost use Rattle.case_notation.specs.Case as notation;
ghost use Rattle.case_notation.specs.Sayable.{IsSayable};
ghost use Rattle.case_notation.specs.declared.case.CaseError.TheVariants.{Memory};

use crate::bench::Bench;
use crate::head::options_of;
use crate::reader::read_body;
use crate::words::first_word;
use ir_statements::statements::Block;
use std::alloc::{AllocError, AllocFailed, Global};

/// How many bytes an input may have.
pub const MOST_CASE_BYTES: usize = 65536;

/// What an input asks to be judged.
#[derive(Drop, Debug)]
pub struct Case {
    /// The bench whose expressions the body names.
    pub bench: Bench,
    /// Whether the expressions of the function are checked.
    pub expressions: bool,
    /// Whether its body is.
    pub blocks: bool,
    /// The body of the bench's function.
    pub body: Block,
}

/// Why no case was read.
#[derive(Clone, Copy, PartialEq, Eq, Debug)]
pub enum CaseError {
    /// The input isn't a case.
    Unreadable,
    /// A request for memory was refused.
    Memory,
}

impl From<AllocError> for CaseError {
    ghost from_gives = { λ _ e. e ≡ Memory };

    fn from(_e: AllocError) -> CaseError {
        CaseError::Memory
    }
}

impl<T: Drop> From<AllocFailed<T>> for CaseError {
    ghost from_gives = { λ _ e. e ≡ Memory };

    fn from(_e: AllocFailed<T>) -> CaseError {
        CaseError::Memory
    }
}

/// Reads an input as a case of the notation (docs/PROGRAM.md), in time and memory in proportion to its length.
/// `Unreadable` is an input that is no case, and `Memory` a refused request for memory.
pub fn read_case(alloc: Global, input: &[u8]) -> Result<Case, CaseError>
    // What is read is what the input says.
    ensures found { IfOk result (λ c. notation.Reads input.now (notation.case_of c)) }
    // Its block is that of the case's tree.
    ensures block { IfOk result (λ c. notation.HoldsBlock c) }
    // It holds the statements of the notation alone, and names none but the bench's expressions.
    ensures sayable { IfOk result (λ c. IsSayable c.bench (notation.case_of c).body) }
    // An input is unreadable only where it says nothing.
    ensures none { IsErrOf result CaseError.Unreadable → (c : notation.Case) → notation.Reads input.now c → ⊥ }
{
    if input.len() > MOST_CASE_BYTES {
        return Err(CaseError::Unreadable);
    }
    let Some((word, behind)) = first_word(input) else {
        return Err(CaseError::Unreadable);
    };
    let Some(bench) = Bench::named(word) else {
        return Err(CaseError::Unreadable);
    };
    let Some((flags, text)) = options_of(behind) else {
        return Err(CaseError::Unreadable);
    };
    let body = read_body(alloc, bench, text)?;
    Ok(Case {
        bench,
        expressions: flags.expressions,
        blocks: flags.blocks,
        body,
    })
}

/// No input reads as two cases.
pub fn one_reading()
    ensures { (input : List ℕ) (a b : notation.Case) → notation.Reads input a → notation.Reads input b → a ≡ b }
{}
