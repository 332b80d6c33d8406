//! Whether the lower layer knows the sizes that the checks of entry points ask it for.

ghost use Rattle.std.specs.Prelude.{◌≡◌, ◌↔◌, IsTrue, IsSome};
ghost use Rattle.ir_types.specs.declared.types.AddressSpace.TheVariants as space;
ghost use Rattle.check_entry.specs.InterfacePoints.{HasPayloadSizes};

use crate::validator::Validator;
use ir_facts::below::Below;
use ir_module::module::{GlobalVariable, Module};

impl<B: Below> Validator<B> {
    /// Whether the lower layer knows the size of the type of each global in `TaskPayload`.
    pub fn has_payload_sizes(&self, module: &Module) -> bool
        ensures { IsTrue result ↔ HasPayloadSizes (B.meaning self.now.below) «module».now }
    {
        let globals = module.global_variables.as_slice();
        globals
            .iter()
            .all(|global| self.has_payload_size(module, global))
    }

    fn has_payload_size(&self, module: &Module, global: &GlobalVariable) -> bool
        ensures { IsTrue result ↔ (global.now.space ≡ space.TaskPayload →
            IsSome ((B.meaning self.now.below).size_of «module».now global.now.ty)) }
    {
        !global.space.is_task_payload() || self.below.type_size(module, global.ty).is_some()
    }
}
