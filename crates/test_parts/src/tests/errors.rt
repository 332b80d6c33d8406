//! Errors: what they print, the sentences that no verdict has, and places that a clone keeps.

mod clones;
mod names;
mod sentences;
