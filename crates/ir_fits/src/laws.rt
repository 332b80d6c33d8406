//! Laws of misfits: they compute nothing, and a caller calls them to cite them.

ghost use Rattle.ir_fits.specs.Laws.{TypesAreExact, GlobalsAreExact, FunctionsAreExact, EntriesAreExact};

/// Law of misfits: types, globals, functions and entry points have none exactly where they fit, in the sense of `fits_types`,
/// `fits_globals`, `fits_function` and `fits_entry`.
pub fn misfits_law()
    ensures types { TypesAreExact }
    ensures globals { GlobalsAreExact }
    ensures functions { FunctionsAreExact }
    ensures entries { EntriesAreExact }
{}
