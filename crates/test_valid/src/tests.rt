//! What no document can say: what a validator keeps, out of memory, calls by themselves, and texts.

ghost use Rattle.std.specs.Prelude.{◌≡◌, true};

use std::process::Abort;

/// It holds; else the test ends with its text.
fn assert_holds(rt: &impl Abort, text: &str, holds: bool)
    ensures { holds ≡ true }
{
    assert!(rt; holds, "{text}");
}

/// What `assert!` does, by a call: a function that asserts much is then quick to prove.
macro_rules! holds {
    ($rt:expr; $holds:expr) => {
        crate::tests::assert_holds($rt, stringify!($holds), $holds)
    };
}

mod bench;
mod entry_errors;
mod faltering;
mod falters;
mod fitting;
mod globals;
mod judged;
mod kept;
mod parts;
mod report;
mod rows;
