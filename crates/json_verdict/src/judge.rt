//! Judges a text: the verdict of a document.

ghost use Rattle.std.specs.Prelude.{◌≡◌};
ghost use Rattle.json_verdict.specs.Judges.{Judges};
ghost use Rattle.json_answers.specs.Status.{status_of};

use crate::examine::examine_text;
use json_answers::verdict::drop_refused;
use json_answers::{Examined, Verdict};
use json_document::Scratch;
use std::alloc::Global;

/// Judges a text: reads a document, and judges its module with `check_module` over its facts. Where these are null, that is
/// over `Typed`, with the infos and types that are computed from the module.
///
/// The text is JSON in UTF-8, of at most 16777216 bytes. docs/MODULES.md has its form. [`examine`](crate::examine::examine)
/// also finds where the fault stands, for which it judges a refused module once more.
pub fn judge(alloc: Global, text: &[u8]) -> Verdict
    ensures { Judges text.now result }
{
    let Examined {
        id,
        verdict,
        misfit: _,
        refused,
    } = examine_text(alloc, text, &mut Scratch::new(alloc), false);
    drop(id);
    // None, since no fault was located. What owns a module is dropped by a call all the same.
    if let Some(refused) = refused {
        drop_refused(refused);
    }
    verdict
}
