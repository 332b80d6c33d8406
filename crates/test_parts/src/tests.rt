//! Tests of the IR, of errors and of the parts of the validator by themselves.
//!
//! A test makes what owns memory by a helper, hands references to helpers that assert, and drops it by a call: so the proofs
//! stay small.

use ir_arena::{Handle, Span, tag};
use ir_module::Module;
use ir_types::{Type, TypeInner, UniqueArena};
use std::error::Error;
use std::process::Abort;

/// What `assert!` does, by a call: a function that asserts much is then quick to prove.
macro_rules! holds {
    ($rt:expr; $holds:expr) => {
        crate::tests::holding::assert_holds($rt, stringify!($holds), $holds)
    };
}

mod errors;
mod holding;
mod ir;
mod layers;
mod typed;
mod varyings;

/// What there was memory for.
fn made<T, E>(rt: &impl Abort, answer: Result<T, E>) -> T {
    match answer {
        Ok(value) => value,
        Err(_) => panic!(rt; "no memory"),
    }
}

/// Puts a type without a name into an arena that isn't full.
fn put(rt: &impl Abort, types: &mut UniqueArena<Type>, inner: TypeInner) -> Handle<tag::Type> {
    holds!(rt; !types.is_full());
    made(
        rt,
        types.insert(Type { name: None, inner }, Span::UNDEFINED),
    )
}

/// A module of this type alone.
fn module_of(rt: &(impl Abort + AllocGlobal), inner: TypeInner) -> Module {
    let mut module = Module::new(rt.alloc());
    put(rt, &mut module.types, inner);
    module
}

/// An error, which is taken as any error, prints this.
fn expect_said<T: Error + Drop>(rt: &(impl Abort + AllocGlobal), error: T, text: &str) {
    let said = made(rt, error.to_string(rt.alloc()));
    drop(error);
    holds!(rt; said.as_str() == text);
    drop(said);
}
