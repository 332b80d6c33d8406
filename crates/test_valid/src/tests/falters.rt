//! Each call of the lower layer in turn finds no memory: the answer is the row's own or out of memory, which leaves nothing.

use crate::tests::bench::{Bench, drop_bench, make_bench};
use crate::tests::faltering::Faltering;
use crate::tests::judged::{expect_own, layer, module_falters, module_of, validator_over};
use crate::tests::parts::drop_module;
use crate::tests::rows::{CALLING_KILL, FORBIDDEN, Row, left_by, rows};
use naga_below::Module;
use std::cell::Cell;
use std::process::Abort;

/// More calls than any row takes.
const MANY: u32 = 24;

/// A layer which counts its calls here.
fn faltering<'a>(calls: &'a Cell<u32>, refused: u32) -> Faltering<'a> {
    Faltering {
        plain: layer(),
        calls,
        refused,
    }
}

/// Whether out of memory is answered of a row where this call finds none. Asked again the validator gives the row's own answer.
fn falters(rt: &(impl Abort + AllocGlobal), bench: &Bench, row: &Row, refused: u32) -> bool {
    let calls = Cell::new(0);
    let mut validator = validator_over(rt, faltering(&calls, refused));
    expect_own(rt, &mut validator, bench, row, left_by(row))
}

/// Each call that a row takes finds no memory in turn: out of memory is answered no fewer times than this, and not any more
/// where the call is none of the row's.
fn expect_refusals(rt: &(impl Abort + AllocGlobal), bench: &Bench, row: &Row) {
    let mut refusals: u32 = 0;
    for refused in 1..MANY {
        if falters(rt, bench, row, refused) {
            refusals = refusals.saturating_add(1);
        }
    }
    holds!(rt; refusals >= row.calls);
    holds!(rt; !falters(rt, bench, row, MANY));
}

#[test]
fn rows_over_a_layer_that_falters(rt: HostRuntime) {
    let bench = make_bench(&rt);
    for row in rows() {
        expect_refusals(&rt, &bench, row);
    }
    drop_bench(bench);
}

/// The same of a module with the entry point of a row: the same call, made again, has the row's own answer.
fn module_falters_at(
    rt: &(impl Abort + AllocGlobal),
    module: &Module,
    row: &Row,
    refused: u32,
) -> bool {
    let calls = Cell::new(0);
    if !module_falters(rt, faltering(&calls, refused), module, row) {
        return false;
    }
    holds!(rt; !module_falters(rt, faltering(&calls, refused), module, row));
    true
}

/// The layer is asked of the kinds of the module, and three times of each of its functions and of its entry point, since each has
/// one expression.
fn expect_module_refusals(rt: &(impl Abort + AllocGlobal), module: &Module, row: &Row) {
    let mut refusals: u32 = 0;
    for refused in 1..MANY {
        if module_falters_at(rt, module, row, refused) {
            refusals = refusals.saturating_add(1);
        }
    }
    holds!(rt; refusals >= 10);
    holds!(rt; !module_falters_at(rt, module, row, MANY));
}

#[test]
fn modules_over_a_layer_that_falters(rt: HostRuntime) {
    let accepted = module_of(&rt, &CALLING_KILL);
    expect_module_refusals(&rt, &accepted, &CALLING_KILL);
    drop_module(accepted);
    let refused = module_of(&rt, &FORBIDDEN);
    expect_module_refusals(&rt, &refused, &FORBIDDEN);
    drop_module(refused);
}
