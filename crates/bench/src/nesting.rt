//! What a body that nests deep asks of the stack. It is made (without recursion), maybe tested and judged, and dropped, and
//! each step is printed once it is done; tools/stack finds the depth at which a step no longer ends.

use crate::bodies::{Holder, Shape};
use crate::judge_first;
use crate::modules::{Program, fill_module};
use crate::timing::Stop;
use naga_below::{fits_function, fits_types};
use naga_layers::Plain;
use naga_valid::Validator;
use std::io;

/// The holder with this name.
pub(crate) fn holder_of(word: &str) -> Option<Holder> {
    match word {
        "block" => Some(Holder::Block),
        "if" => Some(Holder::If),
        "loop" => Some(Holder::Loop),
        _ => None,
    }
}

/// Tests and judges the second function.
fn judge(rt: &HostRuntime, validator: &mut Validator<Plain>, program: &Program) -> io::Result<()> {
    let Program { module, infos } = program;
    let Some(fun) = module.functions.as_slice().get(1) else {
        return println!(rt; "no function");
    };
    if !validator.has_types_of(module) || !fits_types(module) {
        return println!(rt; "not fit");
    }
    if !fits_function(fun, module, infos.functions.len()) {
        return println!(rt; "not fit");
    }
    println!(rt; "tested")?;
    let answer = validator.validate_function(rt.alloc(), fun, module, infos, false);
    let is_refused = answer.is_err();
    drop(answer);
    println!(rt; "{}", if is_refused { "refused" } else { "judged" })
}

/// Makes a function of a shape, says so, and maybe judges it.
fn tell(
    rt: &HostRuntime,
    validator: &mut Validator<Plain>,
    program: &mut Program,
    shape: Shape,
    is_judged: bool,
) -> io::Result<()> {
    fill_module(rt.alloc(), &mut program.module, shape, 1)?;
    println!(rt; "made")?;
    if !is_judged {
        return Ok(());
    }
    match judge_first(rt.alloc(), validator, &program.module, &mut program.infos) {
        Ok(()) => judge(rt, validator, program),
        Err(Stop::Refused) => println!(rt; "not fit"),
        Err(Stop::Failed(error)) => Err(error),
    }
}

/// Goes through the steps with a body whose lists hold each other so deep. Without a judgement it is dropped as it was made.
pub(crate) fn run(
    rt: &HostRuntime,
    validator: &mut Validator<Plain>,
    holder: Holder,
    depth: u32,
    is_judged: bool,
) -> io::Result<()> {
    let nest = Shape::Nest {
        holder,
        depth,
        width: 0,
    };
    let mut program = Program::new(rt.alloc());
    let told = tell(rt, validator, &mut program, nest, is_judged);
    drop(program);
    told?;
    println!(rt; "dropped")
}
