//! What a validator keeps: what the ray traces of accepted rows leave, and nothing of refused ones; its settings; the infos of
//! types.

use crate::tests::bench::{Bench, drop_bench, infos_of, infos_of_types, make_bench};
use crate::tests::judged::{expect_own, layer, validator_over};
use crate::tests::parts::{SETTINGS, known, made};
use crate::tests::rows::{
    FORBIDDEN, NOTHING, REFUSED_TRACING, Row, TRACING, WITH_BARRIER, left_by, rows,
};
use naga_below::{ShaderStages, SubgroupOperationSet, TypeInfo};
use naga_layers::Plain;
use naga_valid::{TraceState, Validator};
use std::process::Abort;

/// A fresh validator gives these rows their own answers, one after the other, and ray traces leave this each time.
fn expect_rows(rt: &(impl Abort + AllocGlobal), bench: &Bench, rows: &[(Row, TraceState)]) {
    let mut validator = validator_over(rt, layer());
    for (row, left) in rows {
        expect_own(rt, &mut validator, bench, row, *left);
    }
    drop(validator);
}

/// Each row after one that is refused.
fn expect_behind(rt: &(impl Abort + AllocGlobal), bench: &Bench, refused: &Row) {
    for row in rows() {
        expect_rows(rt, bench, &[(*refused, NOTHING), (*row, left_by(row))]);
    }
}

/// What a validator that has refused a row answers to another is what a fresh one answers, and so is what it keeps.
#[test]
fn a_refusal_changes_no_later_answer(rt: HostRuntime) {
    let bench = make_bench(&rt);
    for row in rows() {
        if !row.told.is_empty() {
            expect_behind(&rt, &bench, row);
        }
    }
    drop_bench(bench);
}

#[test]
fn a_refusal_leaves_what_was_traced(rt: HostRuntime) {
    let bench = make_bench(&rt);
    let rows = [
        (TRACING, left_by(&TRACING)),
        (REFUSED_TRACING, left_by(&TRACING)),
    ];
    expect_rows(&rt, &bench, &rows);
    drop_bench(bench);
}

/// Infos by which a function that kills may run in all stages.
#[test]
fn infos_that_claim_all_stages_are_believed(rt: HostRuntime) {
    let mut bench = make_bench(&rt);
    bench.infos = infos_of(&rt, [ShaderStages::ALL; 2]);
    let row = Row {
        told: "",
        ..FORBIDDEN
    };
    expect_rows(&rt, &bench, &[(row, NOTHING)]);
    drop_bench(bench);
}

/// At first a target has no subgroup operations and no stages for them.
#[test]
fn settings_let_subgroups_be_used(rt: HostRuntime) {
    let bench = make_bench(&rt);
    let infos = infos_of_types(&rt, known());
    let mut validator = Validator::new(layer(), SETTINGS.flags, SETTINGS.capabilities).with_types(
        infos,
    );
    expect_own(&rt, &mut validator, &bench, &WITH_BARRIER, NOTHING);
    validator.subgroup_stages(ShaderStages::COMPUTE);
    validator.subgroup_operations(SubgroupOperationSet::BASIC);
    let row = Row {
        told: "",
        ..WITH_BARRIER
    };
    expect_own(&rt, &mut validator, &bench, &row, NOTHING);
    drop(validator);
    drop_bench(bench);
}

/// Whether a validator has one info for each type of the module.
fn expect_types(rt: &impl Abort, validator: &Validator<Plain>, bench: &Bench, expected: bool) {
    holds!(rt; validator.has_types_of(&bench.module) == expected);
}

/// An info for one type alone.
fn one_info(rt: &(impl Abort + AllocGlobal)) -> Vec<TypeInfo> {
    made(rt, vec![in rt.alloc(); known(); 1])
}

#[test]
fn there_is_one_info_for_each_type(rt: HostRuntime) {
    let bench = make_bench(&rt);
    let validator = validator_over(&rt, layer());
    expect_types(&rt, &validator, &bench, true);
    let validator = validator.with_types(one_info(&rt));
    expect_types(&rt, &validator, &bench, false);
    drop(validator);
    drop_bench(bench);
}
