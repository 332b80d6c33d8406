//! The bindings of the globals that an entry point uses.

ghost use Rattle.std.specs.Prelude.{◌≡◌, IsTrue, List, None, ℕ};
ghost use Rattle.ir_arena.specs.Points.{first_fault};
ghost use Rattle.ir_flags.specs.declared.valid.GlobalUse.{GlobalUse as Use};
ghost use Rattle.ir_module.specs.declared.module.GlobalVariable.{GlobalVariable as Variable};
ghost use Rattle.check_variables.specs.TakenBindings.{AreTaken};
ghost use Rattle.check_entry.specs.UsedGlobals.{binding_points};
ghost use Rattle.ir_facts.specs.Answers.{Finds, FirstOf};

use check_faults::entry::EntryPointError;
use ir_arena::handle::Handle;
use ir_arena::tag;
use ir_flags::valid::ValidationFlags;
use ir_module::module::ResourceBinding;
use std::collections::BTreeSet;

/// Whether bindings aren't checked, or no earlier global that is used has this one.
pub(crate) fn binding_holds(
    flags: ValidationFlags,
    taken: &BTreeSet<ResourceBinding>,
    binding: Option<ResourceBinding>,
) -> bool
    ensures { (uses : List Use) (globals : List Variable) (h : ℕ) → AreTaken taken.now uses globals h → IsTrue result →
        first_fault (binding_points flags uses globals h binding) ≡ None }
{
    match binding {
        Some(binding) => !flags.contains(ValidationFlags::BINDINGS) || !taken.contains(&binding),
        None => true,
    }
}

/// Where bindings are checked, no earlier global that is used has this one.
pub(crate) fn check_binding(
    flags: ValidationFlags,
    taken: &BTreeSet<ResourceBinding>,
    handle: Handle<tag::GlobalVariable>,
    binding: Option<ResourceBinding>,
) -> Result<(), EntryPointError>
    ensures { (uses : List Use) (globals : List Variable) → AreTaken taken.now uses globals handle →
        Finds (FirstOf (binding_points flags uses globals handle binding)) result }
{
    let Some(binding) = binding else {
        return Ok(());
    };
    if flags.contains(ValidationFlags::BINDINGS) && taken.contains(&binding) {
        return Err(EntryPointError::BindingCollision(handle));
    }
    Ok(())
}
