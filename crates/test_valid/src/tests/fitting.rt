//! Each test of conditions by itself, once where it holds and once where it alone doesn't; `find_misfit` and `find_short_fact` by
//! themselves; and a malicious module. All places that a handle may stand in are documents of the stored run of `naga_judge`.

use crate::tests::bench::{
    Bench, GLOBALS, TYPES, U32, drop_bench, global, infos_of_types, make_bench,
};
use crate::tests::judged::{layer, module_falters, module_of};
use crate::tests::parts::{NOWHERE, SETTINGS, drop_module, known, made};
use crate::tests::rows::{AT_COMPUTE, Row, entry_point};
use naga_below::{
    AddressSpace, Arena, Disalignment, EntryPoint, Handle, Module, TypeInfo, TypeResolution,
    fits_entry, fits_function, fits_globals, fits_types,
};
use naga_module::{
    EntryField, Facts, Given, HandleOf, Misfit, Owner, Place, Problem, Shortage, VariableField,
    find_misfit, find_short_fact,
};
use naga_valid::Validator;
use std::process::Abort;

/// The largest number of 32 bits.
const GREATEST: u32 = 4294967295;

/// Which tests hold where this is known of each type: `has_types_of`, `fits_types`, `fits_globals`, `fits_entry`, and
/// `fits_function` of the entry point's function.
fn expect_tests(
    rt: &(impl Abort + AllocGlobal),
    bench: &Bench,
    ep: &EntryPoint,
    info: TypeInfo,
    expected: &[bool],
) {
    let Bench { module, infos } = bench;
    let validator = Validator::new(layer(), SETTINGS.flags, SETTINGS.capabilities).with_types(
        infos_of_types(rt, info),
    );
    let found = [
        validator.has_types_of(module),
        fits_types(module),
        fits_globals(module, infos),
        fits_entry(ep, module),
        fits_function(&ep.function, module, infos.functions.len()),
    ];
    drop(validator);
    holds!(rt; found.as_slice() == expected);
}

/// An entry point whose payload is the largest handle.
const MALICIOUS: Row = Row {
    payload: Some(GREATEST),
    told: "NotFit: a handle or a range is out of bounds or out of order, a fact is missing, or a global is where none may be",
    ..AT_COMPUTE
};

/// One whose argument is of that type.
const TAKING: Row = Row {
    takes: Some(GREATEST),
    ..AT_COMPUTE
};

/// The largest handle stands where one test sees it, and no other.
#[test]
fn tests_of_conditions(rt: HostRuntime) {
    let mut bench = make_bench(&rt);
    let ep = entry_point(&rt, &AT_COMPUTE);
    let spoiled = TypeInfo {
        storage_layout: Err((Handle::new(GREATEST), Disalignment(0))),
        ..known()
    };
    expect_tests(&rt, &bench, &ep, known(), &[true; 5]);
    expect_tests(&rt, &bench, &ep, spoiled, &[false, true, true, true, true]);
    let bad = entry_point(&rt, &MALICIOUS);
    expect_tests(&rt, &bench, &bad, known(), &[true, true, true, false, true]);
    drop(bad);
    let bad = entry_point(&rt, &TAKING);
    expect_tests(&rt, &bench, &bad, known(), &[true, true, true, true, false]);
    drop(bad);
    bench.module.special_types.ray_desc = Some(Handle::new(GREATEST));
    expect_tests(&rt, &bench, &ep, known(), &[true, false, true, true, true]);
    bench.module.special_types.ray_desc = None;
    let unasked = TypeResolution::Handle(Handle::new(U32));
    made(&rt, bench.infos.global_types.push(unasked));
    expect_tests(&rt, &bench, &ep, known(), &[true, true, false, true, true]);
    drop(ep);
    drop_bench(bench);
}

/// A module has this misfit, if any.
fn expect_misfit(rt: &(impl Abort + AllocGlobal), module: &Module, misfit: Option<Misfit>) {
    let given = Given {
        types: infos_of_types(rt, known()),
        global_types: Vec::new(rt.alloc()),
    };
    let found = find_misfit(rt.alloc(), &layer(), &given, module);
    drop(given);
    holds!(rt; found == misfit);
}

#[test]
fn a_malicious_module(rt: HostRuntime) {
    let module = module_of(&rt, &MALICIOUS);
    if module_falters(&rt, layer(), &module, &MALICIOUS) {
        holds!(&rt; !module_falters(&rt, layer(), &module, &MALICIOUS));
    }
    let misfit = Misfit {
        place: Place::InEntryPoint(0, EntryField::TaskPayload),
        problem: Problem::Handle {
            of: HandleOf::GlobalVariables,
            index: GREATEST as usize,
            below: GLOBALS,
        },
    };
    expect_misfit(&rt, &module, Some(misfit));
    drop_module(module);
}

/// No verdict has this misfit: a global in Function has a fault before it.
const IN_FUNCTION: Misfit = Misfit {
    place: Place::InGlobal(0, VariableField::Space),
    problem: Problem::InFunctionSpace,
};

#[test]
fn no_global_lies_in_function(rt: HostRuntime) {
    let mut module = module_of(&rt, &AT_COMPUTE);
    expect_misfit(&rt, &module, None);
    let mut globals = Arena::new(rt.alloc());
    let variable = global(AddressSpace::Function, U32, None);
    made(&rt, globals.append(variable, NOWHERE));
    module.global_variables = globals;
    expect_misfit(&rt, &module, Some(IN_FUNCTION));
    drop_module(module);
    let misfit = IN_FUNCTION;
    let text = made(&rt, format!(in rt.alloc(); "{misfit}"));
    holds!(&rt; text.as_str() == "the space of global 0 is Function, where no global may lie");
    drop(text);
}

/// In facts without any item this is short of what has such an owner.
fn expect_short(
    rt: &impl Abort,
    facts: &Facts,
    module: &Module,
    owner: Owner,
    expected: Option<Shortage>,
) {
    holds!(rt; find_short_fact(facts, module, owner) == expected);
}

#[test]
fn facts_that_are_not_there(rt: HostRuntime) {
    let module = module_of(&rt, &AT_COMPUTE);
    let facts = Facts::new(rt.alloc());
    let missing = |wanted| Some(Shortage::NoFact { found: 0, wanted });
    expect_short(&rt, &facts, &module, Owner::Function(0), missing(2));
    expect_short(&rt, &facts, &module, Owner::EntryPoint(0), missing(1));
    expect_short(&rt, &facts, &module, Owner::Function(2), None);
    expect_short(&rt, &facts, &module, Owner::Module, None);
    drop(facts);
    drop_module(module);
}
