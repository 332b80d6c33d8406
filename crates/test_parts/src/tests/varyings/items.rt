//! Items after others: what each takes, and what is kept of one that is refused.

use crate::tests::varyings::places::at;
use crate::tests::{made, put};
use bitflags::Flags;
use check_varyings::{VaryingPlace, VaryingState, check_varying_item};
use ir_arena::{Handle, Refusal, Sequence};
use ir_errors::VaryingError;
use ir_fits::fits_types;
use ir_flags::{Capabilities, TypeFlags, ValidationFlags};
use ir_leaves::{Binding, BuiltIn, Interpolation, Scalar, ShaderStage, VectorSize};
use ir_module::Module;
use ir_module::module::drop_module;
use ir_types::{StructMember, Type, TypeInfo, TypeInner, UniqueArena};
use std::process::Abort;

/// Types of the bench.
const U32: u32 = 0;

const F32: u32 = 1;

const VEC4_F32: u32 = 2;
/// A struct that is shared between stages.
const BLEND: u32 = 3;
/// Structs that aren't: with Position and location 1, then twice at location 2; with a member without binding.
const COLLIDING: u32 = 4;

const UNBOUND: u32 = 5;

/// What is known of every type but the structs that aren't shared.
const GOOD: TypeInfo = TypeInfo {
    flags: TypeFlags::ALL,
    storage_layout: Ok(4),
    uniform_layout: Ok(4),
    immediates_compatibility: Ok(()),
};

const UNSHARED: TypeInfo = TypeInfo {
    flags: TypeFlags::DATA,
    ..GOOD
};

/// Position, not invariant.
const POSITION: Binding = Binding::BuiltIn(BuiltIn::Position { invariant: false });

/// A location, interpolated with perspective.
macro_rules! location {
    ($location:expr) => {
        Binding::Location {
            location: $location,
            interpolation: Some(Interpolation::Perspective),
            sampling: None,
            blend_src: None,
            per_primitive: false,
        }
    };
}

/// The types and bindings of the members of the structs.
static OF_BLEND: [(u32, Option<Binding>); 1] = [(VEC4_F32, None)];

static OF_COLLIDING: [(u32, Option<Binding>); 4] = [
    (VEC4_F32, Some(POSITION)),
    (F32, Some(location!(1))),
    (F32, Some(location!(2))),
    (F32, Some(location!(2))),
];

static OF_UNBOUND: [(u32, Option<Binding>); 2] = [(F32, Some(location!(3))), (U32, None)];

/// A struct of members with these types and bindings.
fn structure(
    rt: &(impl Abort + AllocGlobal),
    parts: &[(u32, Option<Binding>)],
    span: u32,
) -> TypeInner {
    let mut members = Sequence::new(rt.alloc());
    for &(ty, binding) in parts {
        let member = StructMember {
            name: None,
            ty: Handle::new(ty),
            binding,
            offset: 0,
        };
        made(rt, members.push(member));
    }
    TypeInner::Struct { members, span }
}

/// The types of the bench.
fn put_types(rt: &(impl Abort + AllocGlobal), types: &mut UniqueArena<Type>) {
    put(rt, types, TypeInner::Scalar(Scalar::U32));
    put(rt, types, TypeInner::Scalar(Scalar::F32));
    let (size, scalar) = (VectorSize::Quad, Scalar::F32);
    put(rt, types, TypeInner::Vector { size, scalar });
    put(rt, types, structure(rt, &OF_BLEND, 16));
    put(rt, types, structure(rt, &OF_COLLIDING, 28));
    put(rt, types, structure(rt, &OF_UNBOUND, 8));
}

/// A module of the types, and an info of each.
#[derive(Clone, Copy)]
struct Bench<'a> {
    module: &'a Module,
    infos: &'a [TypeInfo],
}

/// What an item gets: it is taken, or one of these faults.
#[derive(Clone, Copy)]
enum Expected {
    Taken,
    Collision(u32),
    ViewedTwice,
    Unbound,
    UnboundMember(u32),
}

/// An item: its type, which is one of the bench, its binding, and what it gets.
type Item = (u32, Option<Binding>, Expected);

/// The answer for an item at a place, after what the state has.
#[tactic(auto, using(ir_facts::proofs::Callers::types_name_each_other))]
fn answer_of(
    rt: &(impl Abort + AllocGlobal),
    bench: &Bench,
    state: &mut VaryingState,
    place: &VaryingPlace,
    item: &Item,
) -> Result<(), Refusal<VaryingError>> {
    let (module, infos) = (bench.module, bench.infos);
    let (ty, binding, _) = *item;
    holds!(rt; fits_types(module));
    holds!(rt; infos.len() == module.types.len());
    holds!(rt; (ty as usize) < module.types.len());
    let ty = Handle::new(ty);
    check_varying_item(rt.alloc(), place, state, &module.types, infos, ty, binding)
}

/// Whether a fault is the expected one.
fn is_fault(fault: &VaryingError, expected: Expected) -> bool {
    match expected {
        Expected::Taken => false,
        Expected::Collision(at) => match fault {
            VaryingError::BindingCollision { location } => *location == at,
            _ => false,
        },
        Expected::ViewedTwice => {
            matches!(fault, VaryingError::DuplicateBuiltIn(BuiltIn::ViewIndex))
        }
        Expected::Unbound => matches!(fault, VaryingError::MissingBinding),
        Expected::UnboundMember(at) => match fault {
            VaryingError::MemberMissingBinding(member) => *member == at,
            _ => false,
        },
    }
}

/// Whether an answer is the expected one. None is out of memory.
fn is_answer(answer: &Result<(), Refusal<VaryingError>>, expected: Expected) -> Option<bool> {
    match answer {
        Ok(()) => Some(matches!(expected, Expected::Taken)),
        Err(Refusal::Fault(fault)) => Some(is_fault(fault.as_inner(), expected)),
        Err(Refusal::Memory) => None,
    }
}

/// Whether an item after what the state has gets what is expected. None is out of memory.
fn gets(
    rt: &(impl Abort + AllocGlobal),
    bench: &Bench,
    state: &mut VaryingState,
    place: &VaryingPlace,
    item: &Item,
) -> Option<bool> {
    let answer = answer_of(rt, bench, state, place, item);
    let is_expected = is_answer(&answer, item.2);
    drop(answer);
    is_expected
}

/// An item after what the state has gets what is expected. Where there was no memory, the same call is made again, and there is.
fn next(
    rt: &(impl Abort + AllocGlobal),
    bench: &Bench,
    state: &mut VaryingState,
    place: &VaryingPlace,
    item: &Item,
) {
    let is_expected = match gets(rt, bench, state, place, item) {
        None => gets(rt, bench, state, place, item),
        answer => answer,
    };
    holds!(rt; matches!(is_expected, Some(true)));
}

static TWO_BLENDS: Item = (BLEND, None, Expected::Taken);

static MORE_BLENDS: Item = (BLEND, None, Expected::Collision(0));

/// The two sources of a blend take location 0, and collide there.
fn blends_twice(rt: &(impl Abort + AllocGlobal), bench: &Bench, state: &mut VaryingState) {
    let mut color = at(ShaderStage::Fragment, true);
    next(rt, bench, state, &color, &TWO_BLENDS);
    holds!(rt; state.has_location(0));
    next(rt, bench, state, &color, &MORE_BLENDS);
    color.flags = ValidationFlags::empty();
    next(rt, bench, state, &color, &TWO_BLENDS);
}

const VIEW: Binding = Binding::BuiltIn(BuiltIn::ViewIndex);

static A_VIEW: Item = (U32, Some(VIEW), Expected::Taken);

static THE_SAME_VIEW: Item = (U32, Some(VIEW), Expected::ViewedTwice);

/// ViewIndex is there twice, the second time where the target has nothing.
fn view_twice(rt: &(impl Abort + AllocGlobal), bench: &Bench, state: &mut VaryingState) {
    let mut fragment = at(ShaderStage::Fragment, false);
    fragment.flags = ValidationFlags::empty();
    next(rt, bench, state, &fragment, &A_VIEW);
    fragment.capabilities = Capabilities::empty();
    next(rt, bench, state, &fragment, &THE_SAME_VIEW);
}

/// What the members at the colliding locations and at Position take is there, or isn't.
fn expect_taken(rt: &impl Abort, state: &VaryingState, are_taken: bool) {
    holds!(rt; state.has_location(1) == are_taken);
    holds!(rt; state.has_location(2) == are_taken);
    holds!(rt; state.has_built_in(BuiltIn::Position { invariant: false }) == are_taken);
}

static REFUSED: [Item; 3] = [
    (COLLIDING, None, Expected::Collision(2)),
    (UNBOUND, None, Expected::UnboundMember(1)),
    (U32, None, Expected::Unbound),
];

/// Bindings are checked: nothing is taken.
fn refuse_members(rt: &(impl Abort + AllocGlobal), bench: &Bench, state: &mut VaryingState) {
    let vertex = at(ShaderStage::Vertex, true);
    for item in &REFUSED {
        next(rt, bench, state, &vertex, item);
        expect_taken(rt, state, false);
    }
    holds!(rt; !state.has_location(3));
}

static TAKEN: [Item; 3] = [
    (COLLIDING, None, Expected::Taken),
    (UNBOUND, None, Expected::Taken),
    (U32, None, Expected::Taken),
];

static A_POSITION: Item = (VEC4_F32, Some(POSITION), Expected::Taken);

/// Bindings aren't checked: what is bound is taken.
fn take_members(rt: &(impl Abort + AllocGlobal), bench: &Bench, state: &mut VaryingState) {
    let mut vertex = at(ShaderStage::Vertex, true);
    vertex.flags = ValidationFlags::empty();
    for item in &TAKEN {
        next(rt, bench, state, &vertex, item);
        expect_taken(rt, state, true);
    }
    state.clear_built_ins();
    holds!(rt; state.has_location(3));
    next(rt, bench, state, &vertex, &A_POSITION);
}

/// Asks with three states. Members are refused, and then taken.
fn ask(rt: &(impl Abort + AllocGlobal), bench: &Bench) {
    let mut state = VaryingState::new(rt.alloc());
    blends_twice(rt, bench, &mut state);
    drop(state);
    let mut state = VaryingState::new(rt.alloc());
    view_twice(rt, bench, &mut state);
    drop(state);
    let mut state = VaryingState::new(rt.alloc());
    refuse_members(rt, bench, &mut state);
    take_members(rt, bench, &mut state);
    drop(state);
}

#[test]
fn items_behind_others(rt: HostRuntime) {
    let mut module = Module::new(rt.alloc());
    put_types(&rt, &mut module.types);
    // the last two structs aren't shared
    let infos = [GOOD, GOOD, GOOD, GOOD, UNSHARED, UNSHARED];
    let bench = Bench {
        module: &module,
        infos: infos.as_slice(),
    };
    ask(&rt, &bench);
    drop_module(module);
}
