//! The validator of functions.

ghost use Rattle.std.specs.Prelude.{◌≡◌, ◌↔◌, IsTrue, []};
ghost use Rattle.check_statement.specs.ValidatorParts.{ValidatorParts, infos_given, first_settings, no_traces};
ghost use Rattle.check_entry.specs.GivenInfos.{NamesTypes, AreInfosOf};

mod entry;
mod entry_point;
mod expressions;
mod global;
mod judge;
mod payloads;
mod whole;

use bitflags::Flags;
use check_scope::table::Table;
use check_scope::trace::{TraceRayVertexReturnState, TraceState};
use ir_arena::sequence::Sequence;
use ir_facts::below::Below;
use ir_facts::valid::settings::Settings;
use ir_flags::capabilities::Capabilities;
use ir_flags::valid::{ShaderStages, SubgroupOperationSet, ValidationFlags};
use ir_module::module::Module;
use ir_types::type_info::TypeInfo;
use std::marker::Model;

/// Validates the functions of a module over a lower layer: naga's `Validator`.
#[derive(Drop)]
pub struct Validator<B> {
    below: B,
    settings: Settings,
    // none until they are given
    types: Option<Sequence<TypeInfo>>,
    trace: TraceState,
    // kept from function to function for its memory alone, and none before the first
    table: Option<Table>,
}

impl<B> Model for Validator<B> {
    ghost Value = { ValidatorParts B };

    ghost view = { λ v. record { below = v.below; settings = v.settings; types = infos_given v.types; trace = v.trace } };
}

impl<B: Below> Validator<B> {
    /// A validator over a lower layer, with these checks, for a target with these capabilities. It has no type infos
    /// yet. It allocates nothing.
    pub fn new(below: B, flags: ValidationFlags, capabilities: Capabilities) -> Self
        ensures { result ≡ record { below = below; settings = first_settings flags capabilities; types = []; trace = no_traces } }
    {
        Validator {
            below,
            settings: Settings {
                flags,
                capabilities,
                subgroup_stages: ShaderStages::empty(),
                subgroup_operations: SubgroupOperationSet::empty(),
            },
            types: None,
            trace: TraceState {
                payload: None,
                vertex_return: TraceRayVertexReturnState::NoTraceRays,
            },
            table: None,
        }
    }

    /// The same validator with these type infos, indexed as the module's types are.
    pub fn with_types(self, types: Vec<TypeInfo>) -> Self
    where
        B: Drop,
        ensures { result ≡ record self { types = types.items } }
    {
        let Validator {
            below,
            settings,
            types: _,
            trace,
            table,
        } = self;
        Validator {
            below,
            settings,
            types: Some(Sequence::from(types)),
            trace,
            table,
        }
    }

    /// Sets the stages in which subgroup operations may be used. At first there are none.
    pub fn subgroup_stages(&mut self, set: ShaderStages)
        ensures { self.new ≡ record self.old { settings = record self.old.settings { subgroup_stages = set } } }
    {
        self.settings.subgroup_stages = set;
    }

    /// Sets the groups of subgroup operations that the target has. At first there are none.
    pub fn subgroup_operations(&mut self, set: SubgroupOperationSet)
        ensures { self.new ≡ record self.old { settings = record self.old.settings { subgroup_operations = set } } }
    {
        self.settings.subgroup_operations = set;
    }

    /// The lower layer that the validator depends on.
    pub fn below(&self) -> &B
        ensures { result.now ≡ self.now.below }
    {
        &self.below
    }

    /// What the ray traces of the functions so far leave: the type that a payload must have, and how vertices are
    /// returned. At first there is no payload type, and vertices are `NoTraceRays`.
    pub fn trace_state(&self) -> TraceState
        ensures { result ≡ self.now.trace }
    {
        self.trace
    }

    /// The infos that were given, none at first.
    fn infos(&self) -> &[TypeInfo]
        ensures { result.now ≡ self.now.types }
    {
        match &self.types {
            Some(infos) => infos.as_slice(),
            None => &[],
        }
    }

    /// Whether there is one info for each type of the module, and the types that the infos name are the module's.
    pub fn has_types_of(&self, module: &Module) -> bool
        ensures { IsTrue result ↔ AreInfosOf «module».now self.now.types }
    {
        let count = module.types.len();
        let infos = self.infos();
        infos.len() == count && infos.iter().all(|info| names_types(info, count))
    }
}

/// Whether the types that an info names as the cause of a bad layout are among the first ones.
fn names_types(info: &TypeInfo, count: usize) -> bool
    ensures { IsTrue result ↔ NamesTypes count info.now }
{
    let storage = match info.storage_layout {
        Ok(_) => true,
        Err((ty, _)) => ty.index() < count,
    };
    let uniform = match info.uniform_layout {
        Ok(_) => true,
        Err((ty, _)) => ty.index() < count,
    };
    storage && uniform
}
