//! What is timed: a judgement, the tests of its conditions before it, and the lower layer alone.

use naga_below::{
    Capabilities, EntryPoint, Function, Module, ModuleInfo, ShaderStages, SubgroupOperationSet,
    TypeFlags, TypeInfo, ValidationFlags, fits_entry, fits_function, fits_types,
};
use naga_layers::Plain;
use naga_rules::Below;
use naga_valid::Validator;
use std::alloc::{AllocError, Global};
use std::io;
use std::time::{Duration, Instant};

/// What is known of a type that can be used for everything, and whose layouts are good.
const INFO: TypeInfo = TypeInfo {
    flags: TypeFlags::ALL,
    storage_layout: Ok(4),
    uniform_layout: Ok(4),
    immediates_compatibility: Ok(()),
};

/// Every check.
const ALL_CHECKS: ValidationFlags = ValidationFlags::ALL;

/// A validator over the plain layer, with all flags, capabilities and subgroup settings, and an info for each of so many
/// types.
pub(crate) fn validator(alloc: Global, types: usize) -> Result<Validator<Plain>, AllocError> {
    let infos = vec![in alloc; INFO; types]?;
    let below = Plain::without_mesh_shaders();
    let validator = Validator::new(below, ALL_CHECKS, Capabilities::ALL);
    let mut validator = validator.with_types(infos);
    validator.subgroup_stages(ShaderStages::ALL);
    validator.subgroup_operations(SubgroupOperationSet::ALL);
    Ok(validator)
}

/// Why a case has no times.
#[derive(Drop)]
pub(crate) enum Stop {
    /// Something is refused, or something that is named isn't there.
    Refused,
    /// The clock failed, or there was no memory.
    Failed(io::Error),
}

impl From<io::Error> for Stop {
    fn from(error: io::Error) -> Self {
        Stop::Failed(error)
    }
}

impl From<AllocError> for Stop {
    fn from(error: AllocError) -> Self {
        Stop::Failed(io::Error::from(error))
    }
}

/// Times in nanoseconds.
#[derive(Clone, Copy)]
pub(crate) struct Times {
    pub whole: u64,
    pub lower: u64,
    pub conditions: u64,
}

impl Times {
    /// Nothing timed yet, of times that are added.
    pub const ZERO: Times = Times {
        whole: 0,
        lower: 0,
        conditions: 0,
    };

    /// Nothing timed yet, of which the fastest counts.
    pub const NONE: Times = Times {
        whole: u64::MAX,
        lower: u64::MAX,
        conditions: u64::MAX,
    };

    /// The sum of both.
    pub fn plus(self, other: Times) -> Times {
        Times {
            whole: self.whole.saturating_add(other.whole),
            lower: self.lower.saturating_add(other.lower),
            conditions: self.conditions.saturating_add(other.conditions),
        }
    }

    /// The shorter of each.
    pub fn fastest(self, other: Times) -> Times {
        Times {
            whole: self.whole.min(other.whole),
            lower: self.lower.min(other.lower),
            conditions: self.conditions.min(other.conditions),
        }
    }
}

fn nanos(duration: Duration) -> u64 {
    duration
        .as_secs()
        .wrapping_mul(1_000_000_000)
        .wrapping_add(u64::from(duration.subsec_nanos()))
}

/// A function that is timed, its module, and the infos of the functions before it.
#[derive(Clone, Copy)]
pub(crate) struct Timed<'a> {
    pub fun: &'a Function,
    pub module: &'a Module,
    pub infos: &'a ModuleInfo,
}

/// The lower layer alone: types, uses and kinds. What it answers is dropped after the clock has stopped.
fn lower(rt: &HostRuntime, timed: Timed) -> Result<u64, Stop> {
    let Timed { fun, module, infos } = timed;
    let below = Plain::without_mesh_shaders();
    let start = Instant::now(rt)?;
    let info = below.process_function(
        rt.alloc(),
        fun,
        module,
        infos,
        ALL_CHECKS,
        Capabilities::ALL,
    );
    let kinds = below.kinds(rt.alloc(), &fun.expressions);
    let time = start.elapsed(rt);
    let is_good = info.is_ok() && kinds.is_ok();
    drop(info);
    drop(kinds);
    Ok(if is_good { nanos(time?) } else { u64::MAX })
}

/// Whether the conditions hold under which a validator judges a function.
fn fits(validator: &Validator<Plain>, timed: Timed) -> bool {
    let Timed { fun, module, infos } = timed;
    validator.has_types_of(module)
        && fits_types(module)
        && fits_function(fun, module, infos.functions.len())
}

/// The lower layer alone, after a test of the conditions.
pub(crate) fn lower_after_conditions(
    rt: &HostRuntime,
    validator: &Validator<Plain>,
    timed: Timed,
) -> Result<u64, Stop> {
    if !fits(validator, timed) {
        return Err(Stop::Refused);
    }
    lower(rt, timed)
}

/// Tests the conditions so many times: the fastest.
fn conditions(
    rt: &HostRuntime,
    validator: &Validator<Plain>,
    timed: Timed,
    count: u64,
) -> Result<u64, Stop> {
    let mut fastest = u64::MAX;
    for _ in 0..count {
        let start = Instant::now(rt)?;
        if !fits(validator, timed) {
            return Err(Stop::Refused);
        }
        fastest = fastest.min(nanos(start.elapsed(rt)?));
    }
    Ok(fastest)
}

/// How long a judgement took, unless it refused something.
fn accepted(time: io::Result<Duration>, is_refused: bool) -> Result<u64, Stop> {
    let nanos = nanos(time?);
    if is_refused {
        Err(Stop::Refused)
    } else {
        Ok(nanos)
    }
}

/// Judges a function so many times: the fastest. What is answered is dropped after the clock has stopped.
fn judgement(
    rt: &HostRuntime,
    validator: &mut Validator<Plain>,
    timed: Timed,
    count: u64,
) -> Result<u64, Stop> {
    let Timed { fun, module, infos } = timed;
    if !fits_types(module) || !fits_function(fun, module, infos.functions.len()) {
        return Err(Stop::Refused);
    }
    let mut fastest = u64::MAX;
    for _ in 0..count {
        if !validator.has_types_of(module) {
            return Err(Stop::Refused);
        }
        let start = Instant::now(rt)?;
        let answer = validator.validate_function(rt.alloc(), fun, module, infos, false);
        let time = start.elapsed(rt);
        let is_refused = answer.is_err();
        drop(answer);
        fastest = fastest.min(accepted(time, is_refused)?);
    }
    Ok(fastest)
}

/// A function's times, each the fastest of so many in a row: so each finds in the caches what it left there itself.
pub(crate) fn function(
    rt: &HostRuntime,
    validator: &mut Validator<Plain>,
    timed: Timed,
    count: u64,
) -> Result<Times, Stop> {
    let conditions = conditions(rt, validator, timed, count)?;
    let whole = judgement(rt, validator, timed, count)?;
    let mut fastest = u64::MAX;
    for _ in 0..count {
        fastest = fastest.min(lower(rt, timed)?);
    }
    Ok(Times {
        whole,
        lower: fastest,
        conditions,
    })
}

/// One judgement of an entry point.
pub(crate) fn entry_point(
    rt: &HostRuntime,
    validator: &mut Validator<Plain>,
    ep: &EntryPoint,
    module: &Module,
    infos: &ModuleInfo,
) -> Result<Times, Stop> {
    let start = Instant::now(rt)?;
    if !validator.has_types_of(module) || !fits_types(module) || !fits_entry(ep, module) {
        return Err(Stop::Refused);
    }
    if !fits_function(&ep.function, module, infos.functions.len()) {
        return Err(Stop::Refused);
    }
    if !validator.has_payload_sizes(module) {
        return Err(Stop::Refused);
    }
    let conditions = nanos(start.elapsed(rt)?);
    let start = Instant::now(rt)?;
    let answer = validator.validate_entry_point(rt.alloc(), ep, module, infos);
    let time = start.elapsed(rt);
    let is_refused = answer.is_err();
    drop(answer);
    let whole = accepted(time, is_refused)?;
    let fun = &ep.function;
    let lower = lower(rt, Timed { fun, module, infos })?;
    Ok(Times {
        whole,
        lower,
        conditions,
    })
}
