//! The checks of the globals that an entry point uses which ask the lower layer for a size.

ghost use Rattle.std.specs.Prelude.{◌≡◌, ◌<◌, ◌+◌, IfOk, IsTrue, IsSome, None, [], if◌then◌else◌};
ghost use Rattle.ir_arena.specs.Points.{first_fault, points_of_each, within};
ghost use Rattle.ir_types.specs.declared.types.AddressSpace.TheVariants as space;
ghost use Rattle.check_variables.specs.TakenBindings.{AreTaken};
ghost use Rattle.check_entry.specs.UsedGlobals.{used_payload_points, use_points, global_points, globals_points};
ghost use Rattle.check_entry.specs.InterfacePoints.{HasPayloadSizes};
ghost use Rattle.check_entry.specs.EntryFaults.{fault_of};
ghost use Rattle.ir_facts.specs.Answers.{Answers, Finds, FirstOf, read_by};

use crate::answers::answer;
use crate::bindings::{binding_holds, check_binding};
use crate::globals::{check_allowed, check_immediates, is_used_immediate, use_at, use_holds};
use crate::interface::InterfaceContext;
use bitflags::Flags;
use check_faults::entry::EntryPointError;
use check_variables::bindings::take_binding;
use ir_arena::handle::Handle;
use ir_arena::{Refused, tag};
use ir_facts::below::Below;
use ir_flags::valid::GlobalUse;
use ir_module::module::{GlobalVariable, ResourceBinding};
use std::alloc::AllocError;
use std::collections::BTreeSet;

impl<'a, B: Below> InterfaceContext<'a, B> {
    /// A payload that is used is the entry point's, and has at least 4 bytes.
    fn check_used_payload(
        &self,
        handle: Handle<tag::GlobalVariable>,
        var: &GlobalVariable,
    ) -> Result<(), EntryPointError>
        requires { var.now.space ≡ space.TaskPayload →
            IsSome ((B.meaning self.now.below.now).size_of self.now.program.now var.now.ty) }
        ensures { Finds (FirstOf (used_payload_points self.now.entry_point.now.task_payload
            ((B.meaning self.now.below.now).size_of self.now.program.now var.now.ty) handle var.now.space)) result }
    {
        if !var.space.is_task_payload() {
            return Ok(());
        }
        if self.entry_point.task_payload != Some(handle) {
            return Err(EntryPointError::WrongTaskPayloadUsed);
        }
        let size = self.below.type_size(self.program, var.ty).unwrap();
        if size < 4 {
            return Err(EntryPointError::TaskPayloadTooSmall(size));
        }
        Ok(())
    }

    /// How a global is used.
    #[tactic(auto, using(crate::proofs::EntrySteps::finding))]
    fn check_use(
        &self,
        handle: Handle<tag::GlobalVariable>,
        var: &GlobalVariable,
        uses: GlobalUse,
    ) -> Result<(), EntryPointError>
        requires { var.now.space ≡ space.TaskPayload →
            IsSome ((B.meaning self.now.below.now).size_of self.now.program.now var.now.ty) }
        ensures { Finds (FirstOf (use_points (B.meaning self.now.below.now) self.now.settings.flags self.now.program.now
            self.now.entry_point.now [] handle var.now uses)) result }
    {
        self.check_used_payload(handle, var)?;
        check_allowed(self.program, self.entry_point.stage, handle, var, uses)
    }

    /// A global, where it is used: how, and its binding.
    #[tactic(auto, using(crate::proofs::EntrySteps::finding))]
    fn check_used_global(
        &self,
        taken: &BTreeSet<ResourceBinding>,
        handle: Handle<tag::GlobalVariable>,
        var: &GlobalVariable,
    ) -> Result<(), EntryPointError>
        requires size { var.now.space ≡ space.TaskPayload →
            IsSome ((B.meaning self.now.below.now).size_of self.now.program.now var.now.ty) }
        requires taken { AreTaken taken.now self.now.info.now.global_uses self.now.program.now.global_variables handle }
        ensures { Finds (FirstOf (global_points (B.meaning self.now.below.now) self.now.settings.flags self.now.program.now
            self.now.entry_point.now self.now.info.now.global_uses handle var.now)) result }
    {
        let Some(uses) = use_at(self.info, handle.index()) else {
            return Ok(());
        };
        if uses.is_empty() {
            return Ok(());
        }
        self.check_use(handle, var, uses)?;
        check_binding(self.settings.flags, taken, handle, var.binding)
    }

    /// Each global that is used, in order.
    fn check_each_used_global(&self) -> Result<(), Refused<EntryPointError>>
        requires { HasPayloadSizes (B.meaning self.now.below.now) self.now.program.now }
        ensures { Answers (FirstOf (points_of_each (global_points (B.meaning self.now.below.now) self.now.settings.flags
            self.now.program.now self.now.entry_point.now self.now.info.now.global_uses)
            self.now.program.now.global_variables)) result }
    {
        let mut taken = BTreeSet::new(self.alloc);
        let globals = self.program.global_variables.as_slice();
        for index in 0..self.program.global_variables.len() {
            let handle = Handle::new(index as u32);
            let checked = self.check_used_global(&taken, handle, &globals[index]);
            answer(self.alloc, checked)?;
            take_binding(self.program, self.info, &mut taken, index)?;
        }
        Ok(())
    }

    /// The list of the globals that are used, with the fault of each point, where one fails.
    #[cold]
    #[inline(never)]
    #[tactic(auto, using(crate::proofs::EntrySteps::meeting))]
    fn first_fault_of_used_globals(&self) -> Result<(), Refused<EntryPointError>>
        requires { HasPayloadSizes (B.meaning self.now.below.now) self.now.program.now }
        ensures { Answers (FirstOf (within fault_of (globals_points (B.meaning self.now.below.now) self.now.settings.flags
            self.now.program.now self.now.entry_point.now self.now.info.now.global_uses))) (read_by fault_of result) }
    {
        answer(self.alloc, check_immediates(self.program, self.info))?;
        self.check_each_used_global()
    }

    /// Whether no point of a global fails, where this shows at once: it isn't used, or it holds no payload, its uses are
    /// allowed, and its binding isn't taken.
    #[tactic(auto, using(crate::proofs::UsedGlobals::holding))]
    fn used_global_holds(
        &self,
        taken: &BTreeSet<ResourceBinding>,
        index: usize,
        var: &GlobalVariable,
    ) -> bool
        requires { AreTaken taken.now self.now.info.now.global_uses self.now.program.now.global_variables index }
        ensures { IsTrue result → first_fault (global_points (B.meaning self.now.below.now) self.now.settings.flags
            self.now.program.now self.now.entry_point.now self.now.info.now.global_uses index var.now) ≡ None }
    {
        let Some(uses) = use_at(self.info, index) else {
            return true;
        };
        if uses.is_empty() {
            return true;
        }
        use_holds(self.program, self.entry_point.stage, var, uses)
            && binding_holds(self.settings.flags, taken, var.binding)
    }

    /// Whether no point of the globals that are used fails, by one walk over them, as far as it shows at once.
    fn used_globals_hold(&self) -> Result<bool, AllocError>
        ensures { IfOk result (λ hold. IsTrue hold → first_fault (globals_points (B.meaning self.now.below.now)
            self.now.settings.flags self.now.program.now self.now.entry_point.now
            self.now.info.now.global_uses) ≡ None) }
    {
        let mut taken = BTreeSet::new(self.alloc);
        let mut immediates: usize = 0;
        let globals = self.program.global_variables.as_slice();
        for index in 0..self.program.global_variables.len() {
            if !self.used_global_holds(&taken, index, &globals[index]) {
                return Ok(false);
            }
            let is_one = is_used_immediate(self.program, self.info, index);
            immediates = with_one(immediates, is_one);
            take_binding(self.program, self.info, &mut taken, index)?;
        }
        Ok(immediates <= 1)
    }

    /// The globals that are used: of immediates at most one; and then each in order.
    pub(crate) fn check_used_globals(&self) -> Result<(), Refused<EntryPointError>>
        requires { HasPayloadSizes (B.meaning self.now.below.now) self.now.program.now }
        ensures { Answers (FirstOf (within fault_of (globals_points (B.meaning self.now.below.now) self.now.settings.flags
            self.now.program.now self.now.entry_point.now self.now.info.now.global_uses))) (read_by fault_of result) }
    {
        if self.used_globals_hold()? {
            return Ok(());
        }
        self.first_fault_of_used_globals()
    }
}

/// One more, if there is one.
fn with_one(count: usize, is_one: bool) -> usize
    requires { count < 18446744073709551615 }
    ensures { result ≡ count + (if is_one then 1 else 0) }
{
    if is_one { count + 1 } else { count }
}
