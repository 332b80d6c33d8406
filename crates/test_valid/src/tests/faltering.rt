//! A lower layer that finds no memory at one of its calls.

use naga_below::{
    Arena, Capabilities, Expression, ExpressionError, ExpressionKindTracker, Function,
    FunctionInfo, Handle, Module, ModuleInfo, Refusal, Settings, ShaderStages, ValidationFlags,
    tag,
};
use naga_layers::Plain;
use naga_rules::{Below, FunctionError, MeshAnalysis};
use std::alloc::{AllocError, Global};
use std::cell::Cell;

/// The plain layer, but for one call, which finds no memory.
#[derive(Drop)]
pub(crate) struct Faltering<'a> {
    pub plain: Plain,
    /// How many calls have been made that may find no memory, of all layers that count here.
    pub calls: &'a Cell<u32>,
    /// Which of them finds none, counted from 1.
    pub refused: u32,
}

impl<'a> Faltering<'a> {
    /// Counts a call.
    fn count(&self) -> Result<(), AllocError> {
        let calls = self.calls.get().saturating_add(1);
        self.calls.set(calls);
        if calls == self.refused {
            Err(AllocError)
        } else {
            Ok(())
        }
    }
}

impl<'a> Below for Faltering<'a> {
    ghost use Rattle.naga_layers.specs.Plain.Laws.{info_one_type_each, info_one_use_each, info_types_in_range, info_no_struct_values};
    ghost use Rattle.naga_layers.specs.Kinds.{kinds_one_each};
    ghost use Rattle.naga_layers.specs.Plain.Meaning.{plain_meaning};

    ghost meaning = { λ layer. plain_meaning layer.plain };

    fn process_function(
        &self,
        alloc: Global,
        fun: &Function,
        module: &Module,
        mod_info: &ModuleInfo,
        flags: ValidationFlags,
        capabilities: Capabilities,
    ) -> Result<FunctionInfo, Refusal<FunctionError>> {
        self.count()?;
        self.plain
            .process_function(alloc, fun, module, mod_info, flags, capabilities)
    }

    fn validate_expression(
        &self,
        alloc: Global,
        settings: Settings,
        handle: Handle<tag::Expression>,
        fun: &Function,
        module: &Module,
        info: &FunctionInfo,
        mod_info: &ModuleInfo,
        kinds: &ExpressionKindTracker,
    ) -> Result<ShaderStages, Refusal<ExpressionError>> {
        self.count()?;
        self.plain.validate_expression(alloc, settings, handle, fun, module, info, mod_info, kinds)
    }

    fn analyze_mesh_shader_info(
        &self,
        alloc: Global,
        module: &Module,
        output: Handle<tag::GlobalVariable>,
    ) -> Result<MeshAnalysis, AllocError> {
        self.count()?;
        self.plain.analyze_mesh_shader_info(alloc, module, output)
    }

    fn kinds(
        &self,
        alloc: Global,
        expressions: &Arena<Expression>,
    ) -> Result<ExpressionKindTracker, AllocError> {
        self.count()?;
        self.plain.kinds(alloc, expressions)
    }

    fn type_size(&self, module: &Module, ty: Handle<tag::Type>) -> Option<u32> {
        self.plain.type_size(module, ty)
    }

    ghost one_type_each = { λ _ f m _ _ _ info h. info_one_type_each f m info h };

    ghost one_use_each = { λ _ f m _ _ _ info h. info_one_use_each f m info h };

    ghost types_in_range = { λ _ f m _ _ _ info h. info_types_in_range f m info h };

    ghost no_struct_values = { λ _ f m _ _ _ info h. info_no_struct_values f m info h };

    ghost one_kind_each = { λ _ es. kinds_one_each es };
}
