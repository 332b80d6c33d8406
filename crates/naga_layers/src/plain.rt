//! The plain lower layer: a small one, for `naga_check` and for tests.

ghost use Rattle.std.specs.Prelude.{◌≡◌};
ghost use Rattle.ir_facts.specs.Answers.{Answers, Exactly};
ghost use Rattle.naga_layers.specs.Plain.Infos.{plain_info};
ghost use Rattle.naga_layers.specs.Plain.Meaning.{plain_layer};

mod types;
mod uses;

use crate::kinds::kinds_of;
use crate::plain::types::types_of;
use crate::plain::uses::uses_of;
use ir_arena::arena::Arena;
use ir_arena::handle::Handle;
use ir_arena::span::Refusal;
use ir_arena::tag;
use ir_errors::expression::ExpressionError;
use ir_errors::function::FunctionError;
use ir_facts::below::Below;
use ir_facts::proc::expression_kinds::ExpressionKindTracker;
use ir_facts::proc::mesh::MeshAnalysis;
use ir_facts::valid::info::{FunctionInfo, ModuleInfo};
use ir_facts::valid::settings::Settings;
use ir_flags::capabilities::Capabilities;
use ir_flags::valid::{ShaderStages, ValidationFlags};
use ir_module::expressions::Expression;
use ir_module::functions::Function;
use ir_module::module::{MeshOutputTopology, MeshStageInfo, Module};
use layer_types::size_at;
use std::alloc::{AllocError, Global};

/// A lower layer that types the simplest expressions, and refuses any other as `Lower(1)`.
///
/// It checks no expression: each may run in all stages. It gives the same mesh analysis for every global.
#[derive(Drop)]
pub struct Plain {
    /// What a mesh shader's output variable implies.
    pub analysis: MeshAnalysis,
}

impl Plain {
    /// The plain layer with this mesh analysis.
    pub fn new(analysis: MeshAnalysis) -> Plain
        ensures { result ≡ record { analysis = analysis } }
    {
        Plain { analysis }
    }

    /// The plain layer for modules without mesh shaders: its analysis is empty.
    pub fn without_mesh_shaders() -> Plain
        ensures { result ≡ plain_layer }
    {
        let implied = MeshStageInfo {
            topology: MeshOutputTopology::Points,
            max_vertices: 0,
            max_vertices_override: None,
            max_primitives: 0,
            max_primitives_override: None,
            vertex_output_type: Handle::new(0),
            primitive_output_type: Handle::new(0),
            output_variable: Handle::new(0),
        };
        Plain::new(MeshAnalysis {
            implied,
            overrides: [None, None],
            fault: None,
        })
    }
}

/// What the plain layer knows of a function.
fn info_of(
    alloc: Global,
    fun: &Function,
    module: &Module,
) -> Result<FunctionInfo, Refusal<FunctionError>>
    ensures { Answers (Exactly (plain_info fun.now «module».now)) result }
{
    let expression_types = types_of(alloc, module, fun)?;
    let global_uses = uses_of(alloc, module, fun)?;
    Ok(FunctionInfo {
        expression_types,
        global_uses,
        available_stages: ShaderStages::ALL,
        dual_source_blending: false,
    })
}

impl Below for Plain {
    ghost use Rattle.naga_layers.specs.Plain.Meaning.{plain_meaning};
    ghost use Rattle.naga_layers.specs.Plain.Laws.{info_one_type_each, info_one_use_each, info_types_in_range, info_no_struct_values};
    ghost use Rattle.naga_layers.specs.Kinds.{kinds_one_each};

    ghost meaning = { plain_meaning };

    fn process_function(
        &self,
        alloc: Global,
        fun: &Function,
        module: &Module,
        _mod_info: &ModuleInfo,
        _flags: ValidationFlags,
        _capabilities: Capabilities,
    ) -> Result<FunctionInfo, Refusal<FunctionError>> {
        info_of(alloc, fun, module)
    }

    fn validate_expression(
        &self,
        _alloc: Global,
        _settings: Settings,
        _handle: Handle<tag::Expression>,
        _fun: &Function,
        _module: &Module,
        _info: &FunctionInfo,
        _mod_info: &ModuleInfo,
        _kinds: &ExpressionKindTracker,
    ) -> Result<ShaderStages, Refusal<ExpressionError>> {
        Ok(ShaderStages::ALL)
    }

    fn analyze_mesh_shader_info(
        &self,
        alloc: Global,
        _module: &Module,
        _output: Handle<tag::GlobalVariable>,
    ) -> Result<MeshAnalysis, AllocError> {
        self.analysis.clone(alloc)
    }

    fn kinds(
        &self,
        alloc: Global,
        expressions: &Arena<Expression>,
    ) -> Result<ExpressionKindTracker, AllocError> {
        kinds_of(alloc, expressions)
    }

    fn type_size(&self, module: &Module, ty: Handle<tag::Type>) -> Option<u32> {
        size_at(module.types.as_slice(), ty)
    }

    ghost one_type_each = { λ _ f m _ _ _ info h. info_one_type_each f m info h };

    ghost one_use_each = { λ _ f m _ _ _ info h. info_one_use_each f m info h };

    ghost types_in_range = { λ _ f m _ _ _ info h. info_types_in_range f m info h };

    ghost no_struct_values = { λ _ f m _ _ _ info h. info_no_struct_values f m info h };

    ghost one_kind_each = { λ _ es. kinds_one_each es };
}
