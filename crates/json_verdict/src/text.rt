//! A text as its bytes come in.

ghost use Rattle.std.specs.Prelude.{◌≡◌, ◌≤◌, ◌+◌, ◌++◌, ◌∷◌, [], ℕ, List, true, false, length};
ghost use Rattle.std.specs.Bool.{OnTrue};
ghost use Rattle.json_verdict.specs.Judges.{HasMisfit, Judges};
ghost use Rattle.json_answers.specs.VerdictIds.{HasItsId};
ghost use Rattle.json_verdict.specs.walk.Stream.{Holds};

use crate::examine::examine_text;
use json_answers::{Examined, Verdict, alone};
use json_document::{MOST_BYTES, Scratch};
use naga_module::ModuleFault;
use std::alloc::Global;

/// A text as its bytes come in. Of one that is too long one byte more is kept than a document may have.
#[derive(Drop)]
pub(crate) struct Bytes {
    kept: Vec<u8>,
    is_lost: bool,
    // what reading needs, kept from text to text for its memory alone
    scratch: Scratch,
}

impl Bytes {
    /// Nothing has come in.
    pub fn new(alloc: Global) -> Self
        ensures { Holds result [] }
    {
        Bytes {
            kept: Vec::new(alloc),
            is_lost: false,
            scratch: Scratch::new(alloc),
        }
    }

    /// Takes one byte more.
    fn push(&mut self, byte: u8)
        ensures { (text : List ℕ) → Holds self.old text → Holds self.new (text ++ byte ∷ []) }
    {
        if self.kept.as_slice().len() > MOST_BYTES {
            return;
        }
        match self.kept.push(byte) {
            Ok(()) => {}
            Err(_) => self.is_lost = true,
        }
    }

    /// Takes these bytes, one by one.
    fn push_each(&mut self, bytes: &[u8])
        ensures { (text : List ℕ) → Holds self.old text → Holds self.new (text ++ bytes.now) }
    {
        for byte in bytes {
            self.push(*byte);
        }
    }

    /// Takes these bytes, with which it is no longer than a document may be.
    fn append(&mut self, bytes: &[u8])
        requires room { length self.old.kept.items + length bytes.now ≤ 16777216 }
        ensures { (text : List ℕ) → Holds self.old text → Holds self.new (text ++ bytes.now) }
    {
        match self.kept.extend_from_slice(bytes) {
            Ok(()) => {}
            Err(_) => self.is_lost = true,
        }
    }

    /// Takes these bytes.
    pub(crate) fn push_all(&mut self, bytes: &[u8])
        ensures { (text : List ℕ) → Holds self.old text → Holds self.new (text ++ bytes.now) }
    {
        if bytes.len() <= MOST_BYTES {
            if self.kept.as_slice().len() <= MOST_BYTES - bytes.len() {
                return self.append(bytes);
            }
        }
        self.push_each(bytes)
    }

    /// Begins the next text.
    pub fn clear(&mut self)
        ensures { Holds self.new [] }
    {
        self.kept.clear();
        self.is_lost = false;
    }

    /// Whether the verdict is known, whatever comes after these bytes.
    pub(crate) fn is_settled(&self) -> bool
        ensures { OnTrue result ((text more : List ℕ) → Holds self.now text → Holds self.now (text ++ more)) }
    {
        if self.is_lost {
            return true;
        }
        if self.kept.as_slice().len() > MOST_BYTES {
            return true;
        }
        false
    }

    /// Judges the text.
    pub fn examine(&mut self, alloc: Global) -> Examined
        ensures judged { (text : List ℕ) → Holds self.old text → Judges text result.verdict }
        ensures misfit { (text : List ℕ) → Holds self.old text → HasMisfit text result.verdict result.misfit }
        ensures id { (text : List ℕ) → Holds self.old text → HasItsId text result.verdict result.id }
    {
        if self.is_lost {
            alone(None, Verdict::Refused(ModuleFault::Memory))
        } else {
            examine_text(alloc, self.kept.as_slice(), &mut self.scratch, true)
        }
    }
}
