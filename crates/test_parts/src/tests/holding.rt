//! What a test asserts, by a call.

ghost use Rattle.std.specs.Prelude.{◌≡◌, true};

use std::process::Abort;

/// It holds; else the test ends with its text.
pub(crate) fn assert_holds(rt: &impl Abort, text: &str, holds: bool)
    ensures { holds ≡ true }
{
    assert!(rt; holds, "{text}");
}
