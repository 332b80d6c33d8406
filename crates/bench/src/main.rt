//! The benchmark: times the validator over generated bodies, entry points and modules, by the clock.
//!
//! Without an argument it prints the names of the cases; with one it runs those whose names begin so, with `all` every one. With
//! `nesting block|if|loop DEPTH` it goes through the steps of a body that nests so deep, with `dropping` only through making and
//! dropping it. A line of a case has its name, its statements, the fastest judgement of many, the lower layer alone and the tests
//! of the conditions in nanoseconds, and the time in the validator alone for each statement.
#![tactic(auto)]

mod bodies;
mod cases;
mod maker;
mod modules;
mod nesting;
mod timing;
mod wholes;

use crate::bodies::Shape;
use crate::cases::{BODIES, Case, Workload};
use crate::modules::{Program, fill_entry, fill_module};
use crate::timing::{Stop, Timed, Times, validator};
use crate::wholes::WHOLES;
use naga_below::{Module, ModuleInfo, fits_function, fits_types};
use naga_layers::Plain;
use naga_valid::Validator;
use std::alloc::Global;
use std::{env, io};

/// How many types each module has.
const TYPES: usize = 3;

/// How often a case of so many statements is timed.
fn repetitions(statements: usize) -> u64 {
    match statements {
        0..5_000 => 2000,
        5_000..50_000 => 300,
        50_000..500_000 => 40,
        _ => 10,
    }
}

/// What is judged before a case that comes after a large one: a function of a million expressions.
const LARGE: Shape = Shape::Emits(1_000_000);

/// Judges the first function, which the others may call, and puts its info.
fn judge_first(
    alloc: Global,
    validator: &mut Validator<Plain>,
    module: &Module,
    infos: &mut ModuleInfo,
) -> Result<(), Stop> {
    let Some(fun) = module.functions.as_slice().first() else {
        return Err(Stop::Refused);
    };
    if !validator.has_types_of(module) || !fits_types(module) {
        return Err(Stop::Refused);
    }
    if !fits_function(fun, module, infos.functions.len()) {
        return Err(Stop::Refused);
    }
    match validator.validate_function(alloc, fun, module, infos, false) {
        Ok(info) => infos.functions.push(info)?,
        Err(error) => {
            drop(error);
            return Err(Stop::Refused);
        }
    }
    Ok(())
}

/// Makes so many functions of a shape, after the one that they may call, which is judged.
fn fill(
    alloc: Global,
    validator: &mut Validator<Plain>,
    program: &mut Program,
    shape: Shape,
    of: u32,
) -> Result<(), Stop> {
    fill_module(alloc, &mut program.module, shape, of)?;
    judge_first(alloc, validator, &program.module, &mut program.infos)
}

/// Each function after the first, so many times; the times together.
fn each(
    rt: &HostRuntime,
    validator: &mut Validator<Plain>,
    program: &Program,
    count: u64,
) -> Result<Times, Stop> {
    let Program { module, infos } = program;
    let mut times = Times::ZERO;
    for fun in module.functions.as_slice().iter().skip(1) {
        let timed = Timed { fun, module, infos };
        times = times.plus(timing::function(rt, validator, timed, count)?);
    }
    Ok(times)
}

/// So many functions of a shape: one is timed so many times in a row, several one after the other, so many times.
fn functions(
    rt: &HostRuntime,
    validator: &mut Validator<Plain>,
    program: &mut Program,
    shape: Shape,
    of: u32,
    count: u64,
) -> Result<Times, Stop> {
    fill(rt.alloc(), validator, program, shape, of)?;
    if of == 1 {
        return each(rt, validator, program, count);
    }
    let mut times = Times::NONE;
    for _ in 0..count {
        times = times.fastest(each(rt, validator, program, 1)?);
    }
    Ok(times)
}

/// Judges the large function once.
fn judge_large(rt: &HostRuntime, validator: &mut Validator<Plain>) -> Result<(), Stop> {
    let mut large = Program::new(rt.alloc());
    let times = functions(rt, validator, &mut large, LARGE, 1, 1);
    drop(large);
    times?;
    Ok(())
}

/// The first function of a shape after the large one, the fastest of ten such turns.
fn first_after_large(
    rt: &HostRuntime,
    validator: &mut Validator<Plain>,
    program: &mut Program,
    shape: Shape,
) -> Result<Times, Stop> {
    fill(rt.alloc(), validator, program, shape, 1)?;
    let mut large = Program::new(rt.alloc());
    let times = by_turns(rt, validator, program, &mut large);
    drop(large);
    times
}

/// The functions of a program after those of a large one, which is empty before, the fastest of ten such turns.
fn by_turns(
    rt: &HostRuntime,
    validator: &mut Validator<Plain>,
    program: &Program,
    large: &mut Program,
) -> Result<Times, Stop> {
    fill(rt.alloc(), validator, large, LARGE, 1)?;
    let mut times = Times::NONE;
    for _ in 0..10u64 {
        each(rt, validator, large, 1)?;
        times = times.fastest(each(rt, validator, program, 1)?);
    }
    let lower = lower_by_turns(rt, validator, program, large)?;
    Ok(Times { lower, ..times })
}

/// The lower layer alone, in the same turns: so it begins as cold as it does within a judgement.
fn lower_by_turns(
    rt: &HostRuntime,
    validator: &mut Validator<Plain>,
    program: &Program,
    large: &Program,
) -> Result<u64, Stop> {
    let Program { module, infos } = program;
    let mut fastest = u64::MAX;
    for _ in 0..10u64 {
        each(rt, validator, large, 1)?;
        for fun in module.functions.as_slice().iter().skip(1) {
            let timed = Timed { fun, module, infos };
            fastest = fastest.min(timing::lower_after_conditions(rt, validator, timed)?);
        }
    }
    Ok(fastest)
}

/// The entry point of a program.
fn entry(
    rt: &HostRuntime,
    validator: &mut Validator<Plain>,
    program: &Program,
) -> Result<Times, Stop> {
    let Program { module, infos } = program;
    let Some(ep) = module.entry_points.as_slice().first() else {
        return Err(Stop::Refused);
    };
    let mut times = Times::NONE;
    for _ in 0..2000u64 {
        times = times.fastest(timing::entry_point(rt, validator, ep, module, infos)?);
    }
    Ok(times)
}

/// The times of a case, whose parts are put into a program.
fn times_of(
    rt: &HostRuntime,
    validator: &mut Validator<Plain>,
    program: &mut Program,
    case: Case,
) -> Result<Times, Stop> {
    let count = repetitions(case.statements);
    match case.workload {
        Workload::Body(shape) => functions(rt, validator, program, shape, 1, count),
        Workload::AfterLarge(shape) => {
            judge_large(rt, validator)?;
            functions(rt, validator, program, shape, 1, count)
        }
        Workload::FirstAfterLarge(shape) => first_after_large(rt, validator, program, shape),
        Workload::Functions(shape, of) => functions(rt, validator, program, shape, of, count),
        Workload::Entry {
            location,
            varyings,
            globals,
        } => {
            let module = &mut program.module;
            fill_entry(rt.alloc(), module, location, varyings, globals)?;
            entry(rt, validator, program)
        }
    }
}

/// A tenth of a nanosecond a statement.
fn tenths_each(nanos: u64, statements: usize) -> u64 {
    match nanos.wrapping_mul(10).checked_div(statements as u64) {
        Some(each) => each,
        None => 0,
    }
}

/// Prints the times of a case.
fn print_times(rt: &HostRuntime, case: Case, times: Times) -> io::Result<()> {
    let own = tenths_each(times.whole.saturating_sub(times.lower), case.statements);
    let (nanos, tenths) = (own / 10, own % 10);
    let Times {
        whole,
        lower,
        conditions,
    } = times;
    let Case {
        name,
        statements,
        ..
    } = case;
    println!(rt; "{name} {statements} {whole} {lower} {conditions} {nanos}.{tenths}")
}

/// Prints the times of a case, or why it has none.
fn print(rt: &HostRuntime, case: Case, times: Result<Times, Stop>) -> io::Result<()> {
    match times {
        Ok(times) => print_times(rt, case, times),
        Err(Stop::Refused) => println!(rt; "{}: refused", case.name),
        Err(Stop::Failed(error)) => Err(error),
    }
}

fn run(rt: &HostRuntime, case: Case) -> io::Result<()> {
    let mut validator = validator(rt.alloc(), TYPES)?;
    let mut program = Program::new(rt.alloc());
    let times = times_of(rt, &mut validator, &mut program, case);
    drop(program);
    drop(validator);
    print(rt, case, times)
}

/// Runs a case where the word asks for it. Without a word its name is printed.
fn visit(rt: &HostRuntime, case: Case, word: Option<&str>) -> io::Result<()> {
    match word {
        Some(word) if word == "all" || case.name.starts_with(word) => run(rt, case),
        Some(_) => Ok(()),
        None => println!(rt; "{}", case.name),
    }
}

/// Runs the cases that a word asks for. Without a word the names of all are printed.
fn visit_all(rt: &HostRuntime, word: Option<&str>) -> io::Result<()> {
    for case in BODIES.iter().chain(&WHOLES) {
        visit(rt, *case, word)?;
    }
    Ok(())
}

/// Nests a body, by the words for what holds its lists and for its depth.
fn nest(rt: &HostRuntime, holder: &str, depth: &str, is_judged: bool) -> io::Result<()> {
    match (nesting::holder_of(holder), depth.parse()) {
        (Some(holder), Ok(depth)) => {
            let mut validator = validator(rt.alloc(), TYPES)?;
            let told = nesting::run(rt, &mut validator, holder, depth, is_judged);
            drop(validator);
            told
        }
        _ => println!(rt; "nesting|dropping block|if|loop DEPTH"),
    }
}

/// Does what these words ask for.
fn answer(rt: &HostRuntime, words: &[String]) -> io::Result<()> {
    match words {
        [what, holder, depth] if what.as_str() == "nesting" => {
            nest(rt, holder.as_str(), depth.as_str(), true)
        }
        [what, holder, depth] if what.as_str() == "dropping" => {
            nest(rt, holder.as_str(), depth.as_str(), false)
        }
        [word, ..] => visit_all(rt, Some(word.as_str())),
        [] => visit_all(rt, None),
    }
}

fn main(rt: HostRuntime) -> io::Result<()> {
    let words: Vec<String> = env::args(&rt)?.skip(1).collect(rt.alloc())?;
    let answered = answer(&rt, words.as_slice());
    drop(words);
    answered
}
