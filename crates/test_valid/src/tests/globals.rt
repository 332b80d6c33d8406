//! A global variable by itself. Which are accepted, and the faults of the others, documents of the stored run of `naga_judge`
//! show.

use crate::tests::bench::{GLOBALS, U32, global, infos_of_types, module};
use crate::tests::judged::layer;
use crate::tests::parts::{NOWHERE, SETTINGS, drop_module, known, made};
use naga_below::{
    AddressSpace, Expression, ExpressionKindTracker, GlobalVariable, Handle, Literal, Module,
    ModuleInfo, Scalar, Sequence, TypeResolution, fits_globals, fits_types,
};
use naga_layers::Plain;
use naga_rules::{Below, GlobalVariableError};
use naga_valid::Validator;
use std::alloc::{AllocError, Global};
use std::process::Abort;

/// A request of so many bytes says to tools/memory that each later one is to be refused.
const MARK: usize = 1000003;

/// Asks for so many bytes, and gives them back.
fn mark(alloc: Global) {
    let marked: Result<Vec<u8>, AllocError> = Vec::with_capacity(alloc, MARK);
    drop(marked);
}

/// Puts a global last.
fn add_global(rt: &impl Abort, module: &mut Module, global: GlobalVariable) {
    holds!(rt; !module.global_variables.is_full());
    made(rt, module.global_variables.append(global, NOWHERE));
}

/// The module with two more globals: one with an initializer, and one that isn't bound but has to be.
fn two_more(rt: &(impl Abort + AllocGlobal)) -> Module {
    let mut module = module(rt, Sequence::new(rt.alloc()));
    let literal = Literal {
        scalar: Scalar::U32,
        bits: 0,
    };
    holds!(rt; !module.global_expressions.is_full());
    made(
        rt,
        module
            .global_expressions
            .append(Expression::Literal(literal), NOWHERE),
    );
    let initialized = GlobalVariable {
        init: Some(Handle::new(0)),
        ..global(AddressSpace::Private, U32, None)
    };
    add_global(rt, &mut module, initialized);
    add_global(rt, &mut module, global(AddressSpace::Uniform, U32, None));
    module
}

/// A validator answers this of a global of the module.
fn expect(
    rt: &impl Abort,
    validator: &Validator<Plain>,
    module: &Module,
    infos: &ModuleInfo,
    kinds: &ExpressionKindTracker,
    index: usize,
    expected: Result<(), GlobalVariableError>,
) {
    let globals = module.global_variables.as_slice();
    holds!(rt; index < globals.len());
    holds!(rt; kinds.len() == module.global_expressions.len());
    holds!(rt; validator.has_types_of(module));
    holds!(rt; fits_types(module));
    holds!(rt; fits_globals(module, infos));
    let answer = validator.validate_global_var(&globals[index], module, infos, kinds);
    holds!(rt; answer == expected);
}

/// It takes no memory: after the mark each request may be refused.
#[test]
fn globals_are_judged_with_what_the_layer_knows(rt: HostRuntime) {
    let module = two_more(&rt);
    let mut infos = ModuleInfo::new(rt.alloc());
    made(
        &rt,
        infos
            .global_types
            .push(TypeResolution::Handle(Handle::new(U32))),
    );
    let below = layer();
    let kinds = made(&rt, below.kinds(rt.alloc(), &module.global_expressions));
    let types = infos_of_types(&rt, known());
    let validator = Validator::new(below, SETTINGS.flags, SETTINGS.capabilities).with_types(types);
    let unbound = Err(GlobalVariableError::InvalidBinding);
    mark(rt.alloc());
    expect(&rt, &validator, &module, &infos, &kinds, GLOBALS, Ok(()));
    expect(
        &rt,
        &validator,
        &module,
        &infos,
        &kinds,
        GLOBALS + 1,
        unbound,
    );
    drop(validator);
    drop_module(module);
}
