//! Recorded facts that are lent.

use crate::recorded::Recorded;
use ir_arena::{Arena, Handle, Refusal, tag};
use ir_errors::{ExpressionError, FunctionError};
use ir_facts::{Below, ExpressionKindTracker, FunctionInfo, MeshAnalysis, ModuleInfo, Settings};
use ir_flags::{Capabilities, ShaderStages, ValidationFlags};
use ir_module::{Expression, Function, Module};
use std::alloc::{AllocError, Global};

/// Recorded facts that are lent: it answers what they answer, and they are there afterwards.
#[derive(Clone, Copy)]
pub struct Lent<'a> {
    pub layer: &'a Recorded,
}

impl Below for Lent<'_> {
    ghost use Rattle.naga_layers.specs.Recorded.Meaning.{recorded_meaning};
    ghost use Rattle.naga_layers.specs.Recorded.Laws.{one_type_each, one_use_each, types_in_range, no_struct_values};
    ghost use Rattle.naga_layers.specs.Kinds.{kinds_one_each};

    ghost meaning = { λ lent. recorded_meaning lent.layer.now };

    fn process_function(
        &self,
        alloc: Global,
        fun: &Function,
        module: &Module,
        mod_info: &ModuleInfo,
        flags: ValidationFlags,
        capabilities: Capabilities,
    ) -> Result<FunctionInfo, Refusal<FunctionError>> {
        self.layer
            .process_function(alloc, fun, module, mod_info, flags, capabilities)
    }

    fn validate_expression(
        &self,
        alloc: Global,
        settings: Settings,
        handle: Handle<tag::Expression>,
        fun: &Function,
        module: &Module,
        info: &FunctionInfo,
        mod_info: &ModuleInfo,
        kinds: &ExpressionKindTracker,
    ) -> Result<ShaderStages, Refusal<ExpressionError>> {
        self.layer.validate_expression(alloc, settings, handle, fun, module, info, mod_info, kinds)
    }

    fn analyze_mesh_shader_info(
        &self,
        alloc: Global,
        module: &Module,
        output: Handle<tag::GlobalVariable>,
    ) -> Result<MeshAnalysis, AllocError> {
        self.layer.analyze_mesh_shader_info(alloc, module, output)
    }

    fn kinds(
        &self,
        alloc: Global,
        expressions: &Arena<Expression>,
    ) -> Result<ExpressionKindTracker, AllocError> {
        self.layer.kinds(alloc, expressions)
    }

    fn type_size(&self, module: &Module, ty: Handle<tag::Type>) -> Option<u32> {
        self.layer.type_size(module, ty)
    }

    ghost one_type_each = { λ lent f m i _ _ info h. one_type_each lent.layer.now f m i info h };

    ghost one_use_each = { λ lent f m i _ _ info h. one_use_each lent.layer.now f m i info h };

    ghost types_in_range = { λ lent f m i _ _ info h. types_in_range lent.layer.now f m i info h };

    ghost no_struct_values = { λ lent f m i _ _ info h. no_struct_values lent.layer.now f m i info h };

    ghost one_kind_each = { λ _ es. kinds_one_each es };
}
