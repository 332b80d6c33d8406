//! What the tests share: places, checks, what is known of types, and what there was memory for.

use naga_below::{
    Capabilities, Module, Settings, ShaderStages, Span, SubgroupOperationSet, Type, TypeFlags,
    TypeInfo, TypeInner, UniqueArena, ValidationFlags,
};
use std::process::Abort;

/// Where nothing is.
pub(crate) const NOWHERE: Span = Span::UNDEFINED;

/// Where something is.
pub(crate) const HERE: Span = Span { start: 3, end: 7 };

/// Every check, for a target with everything.
pub(crate) const SETTINGS: Settings = Settings {
    flags: ValidationFlags::ALL,
    capabilities: Capabilities::ALL,
    subgroup_stages: ShaderStages::ALL,
    subgroup_operations: SubgroupOperationSet::ALL,
};

/// What is known of a type that can be used for everything but between stages, and whose layouts are good.
pub(crate) fn known() -> TypeInfo {
    TypeInfo {
        flags: TypeFlags(TypeFlags::ALL.0 & !TypeFlags::IO_SHAREABLE.0),
        storage_layout: Ok(4),
        uniform_layout: Ok(4),
        immediates_compatibility: Ok(()),
    }
}

/// What there was memory for.
pub(crate) fn made<T, E>(rt: &impl Abort, answer: Result<T, E>) -> T {
    match answer {
        Ok(value) => value,
        Err(_) => panic!(rt; "no memory"),
    }
}

/// Drops a module: by a call of its own, since a function that drops one itself takes seconds to prove.
pub(crate) fn drop_module(module: Module) {
    drop(module);
}

/// Puts a type without a name last.
pub(crate) fn add_type(rt: &impl Abort, types: &mut UniqueArena<Type>, inner: TypeInner) {
    holds!(rt; !types.is_full());
    made(rt, types.insert(Type { name: None, inner }, NOWHERE));
}

/// Two texts are the same.
pub(crate) fn expect_text(rt: &impl Abort, found: &str, expected: &str) {
    assert!(rt; found == expected, "{found}");
}
