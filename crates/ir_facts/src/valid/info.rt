//! What is known of functions, entry points and modules that were validated.

ghost use Rattle.std.specs.Prelude.{◌≡◌, ◌<◌, length};

use bitflags::Flags;
use ir_arena::handle::Handle;
use ir_arena::sequence::Sequence;
use ir_arena::tag;
use ir_flags::valid::{GlobalUse, ShaderStages};
use ir_types::typifier::TypeResolution;
use std::alloc::Global;

/// The info of a function.
///
/// `expression_types` is indexed by the handles of its expressions, `global_uses` by those of the module's globals. In
/// the info of an accepted function each has one item for each handle.
#[derive(PartialEq, Debug, Drop)]
pub struct FunctionInfo {
    pub expression_types: Sequence<TypeResolution>,
    pub global_uses: Sequence<GlobalUse>,
    /// The stages in which the function may run.
    pub available_stages: ShaderStages,
    /// Whether the entry point outputs two blend sources.
    pub dual_source_blending: bool,
}

impl FunctionInfo {
    ghost use Rattle.ir_facts.specs.Infos.{with_global_use};

    /// Adds a use to those of a global.
    pub fn insert_global_use(&mut self, global_use: GlobalUse, global: Handle<tag::GlobalVariable>)
        requires { global < length self.old.global_uses }
        ensures { self.new ≡ with_global_use self.old global_use global }
    {
        let joined = self.global_uses[global.index()].union(global_use);
        self.global_uses.set(global.index(), joined);
    }
}

/// The infos of a module.
///
/// `functions` is indexed by the handles of its functions, `entry_points` as the module's list is, `global_types` by
/// the handles of its global expressions. For an accepted module each has one item for each of them.
#[derive(PartialEq, Debug, Drop)]
pub struct ModuleInfo {
    pub functions: Sequence<FunctionInfo>,
    pub entry_points: Sequence<FunctionInfo>,
    pub global_types: Sequence<TypeResolution>,
}

impl ModuleInfo {
    ghost use Rattle.ir_facts.specs.Infos.{empty_info};

    /// Empty infos, which keep the allocator.
    pub fn new(alloc: Global) -> Self
        ensures { result ≡ empty_info }
    {
        ModuleInfo {
            functions: Sequence::new(alloc),
            entry_points: Sequence::new(alloc),
            global_types: Sequence::new(alloc),
        }
    }
}
