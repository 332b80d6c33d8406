//! What the checks of a body read.

ghost use Rattle.std.specs.Prelude.{◌≡◌};
ghost use Rattle.std.specs.Option.{option_copied};

use crate::trace::TraceState;
use ir_arena::handle::Handle;
use ir_arena::tag;
use ir_facts::proc::expression_kinds::ExpressionKindTracker;
use ir_facts::valid::info::{FunctionInfo, ModuleInfo};
use ir_facts::valid::settings::Settings;
use ir_leaves::scalars::ScalarKind;
use ir_module::expressions::Expression;
use ir_module::functions::Function;
use ir_module::module::Module;
use ir_types::types::TypeInner;
use ir_types::typifier::TypeResolution;

/// What the checks of a body read: naga's `BlockContext` without the abilities. Look-ups are by handle, and `None`
/// where the handle is out of range.
#[derive(Clone, Copy)]
pub struct BlockContext<'a> {
    pub program: &'a Module,
    /// The infos of the functions before this one, indexed as the module's functions are.
    pub earlier: &'a ModuleInfo,
    pub fun: &'a Function,
    /// What the lower layer knows of the function.
    pub info: &'a FunctionInfo,
    /// One kind for each expression of the function.
    pub kinds: &'a ExpressionKindTracker,
    pub settings: Settings,
    /// What the ray traces of earlier functions left.
    pub trace: TraceState,
}

impl BlockContext<'_> {
    ghost use Rattle.check_scope.specs.walk.SeenContext.{context_of};
    ghost use Rattle.check_scope.specs.ExpressionTypes.{expression_at, resolution_at, type_at, scalar_kind_at};

    /// The expression at a handle.
    pub fn expression(&self, handle: Handle<tag::Expression>) -> Option<&Expression>
        ensures { option_copied result ≡ expression_at (context_of self.now) handle }
    {
        self.fun.expressions.as_slice().get(handle.index())
    }

    /// The type of the expression at a handle, as the lower layer gives it.
    pub fn resolution(&self, handle: Handle<tag::Expression>) -> Option<&TypeResolution>
        ensures { option_copied result ≡ resolution_at (context_of self.now) handle }
    {
        self.info.expression_types.as_slice().get(handle.index())
    }

    /// The type of the expression at a handle.
    pub fn type_inner(&self, handle: Handle<tag::Expression>) -> Option<&TypeInner>
        ensures { option_copied result ≡ type_at (context_of self.now) handle }
    {
        match self.resolution(handle) {
            Some(TypeResolution::Handle(ty)) => match self
                .program
                .types
                .as_slice()
                .get(ty.index())
            {
                Some(ty) => Some(&ty.inner),
                None => None,
            },
            Some(TypeResolution::Value(inner)) => Some(inner),
            None => None,
        }
    }

    /// The scalar kind of the expression at a handle, if its type has one.
    pub fn scalar_kind(&self, handle: Handle<tag::Expression>) -> Option<ScalarKind>
        ensures { result ≡ scalar_kind_at (context_of self.now) handle }
    {
        match self.type_inner(handle) {
            Some(inner) => inner.scalar_kind(),
            None => None,
        }
    }
}
