//! Worked rows: types that are the same, texels, values that are there already, and clones.

ghost use Rattle.std.specs.Prelude.{IsTrue};
ghost use Rattle.ir_types.specs.Types.{ResolutionFits};

use crate::tests::{made, module_of, put};
use ir_arena::{Handle, Range, Span};
use ir_errors::FunctionError;
use ir_fits::fits_types;
use ir_leaves::{Scalar, StorageFormat, VectorSize};
use ir_module::Module;
use ir_statements::{Block, Statement};
use ir_types::{AddressSpace, TypeInner, TypeResolution, UniqueArena, compare_types};
use std::process::Abort;

/// A pointer to type 0 in Function.
fn pointer() -> TypeInner {
    TypeInner::Pointer {
        base: Handle::new(0),
        space: AddressSpace::Function,
    }
}

/// Whether the type that the pointer points to is there; a value pointer names none.
fn is_there(resolution: &TypeResolution, count: usize) -> bool
    ensures { IsTrue result → ResolutionFits count resolution.now }
{
    match resolution {
        TypeResolution::Value(TypeInner::Pointer { base, .. }) => base.index() < count,
        TypeResolution::Value(TypeInner::ValuePointer { .. }) => true,
        TypeResolution::Value(_) | TypeResolution::Handle(_) => false,
    }
}

/// The two are the same type.
#[tactic(auto, using(ir_facts::proofs::Callers::types_name_each_other))]
fn expect_same_type(
    rt: &impl Abort,
    module: &Module,
    first: &TypeResolution,
    second: &TypeResolution,
) {
    holds!(rt; fits_types(module));
    holds!(rt; is_there(first, module.types.len()));
    holds!(rt; is_there(second, module.types.len()));
    holds!(rt; compare_types(first, second, &module.types));
}

/// A pointer to u32 in Function and the value pointer of u32 there are the same type.
#[test]
fn a_pointer_to_a_scalar_is_a_value_pointer(rt: HostRuntime) {
    let module = module_of(&rt, TypeInner::Scalar(Scalar::U32));
    let first = TypeResolution::Value(pointer());
    let second = TypeResolution::Value(TypeInner::ValuePointer {
        size: None,
        scalar: Scalar::U32,
        space: AddressSpace::Function,
    });
    expect_same_type(&rt, &module, &first, &second);
    drop(second);
    drop(first);
    drop(module);
}

/// Types that name themselves don't fit.
#[test]
fn a_pointer_to_itself_fits_nowhere(rt: HostRuntime) {
    let module = module_of(&rt, pointer());
    holds!(&rt; !fits_types(&module));
    drop(module);
}

/// A vector of four gives no coordinates of a storage image, and a texel of R64Uint is a u64.
#[test]
fn storage_images(rt: HostRuntime) {
    let vector = TypeInner::Vector {
        size: VectorSize::Quad,
        scalar: Scalar::U32,
    };
    holds!(&rt; vector.image_storage_coordinates().is_none());
    drop(vector);
    holds!(&rt; Scalar::from(StorageFormat::R64Uint) == Scalar::U64);
}

/// A type that is put in again has the handle that it had.
#[test]
fn a_type_is_kept_once(rt: HostRuntime) {
    let mut types = UniqueArena::new(rt.alloc());
    let first = put(&rt, &mut types, TypeInner::Scalar(Scalar::U32));
    let again = put(&rt, &mut types, TypeInner::Scalar(Scalar::U32));
    holds!(&rt; first == again);
    holds!(&rt; types.len() == 1);
    drop(types);
}

/// The clone of a block that holds an Emit equals it.
#[test]
fn a_block_is_cloned(rt: HostRuntime) {
    let mut block = Block::new(rt.alloc());
    let range = Range::new(Handle::new(1), Handle::new(2));
    made(&rt, block.push(Statement::Emit(range), Span::UNDEFINED));
    let copy = made(&rt, block.clone(rt.alloc()));
    holds!(&rt; copy == block);
    drop(copy);
    drop(block);
}

/// So does that of a fault that holds types.
#[test]
fn a_fault_is_cloned(rt: HostRuntime) {
    let fault = FunctionError::InvalidStoreValue {
        actual: Handle::new(3),
        actual_ty: TypeInner::Scalar(Scalar::U32),
        expected_ty: pointer(),
    };
    let copy = made(&rt, fault.clone(rt.alloc()));
    holds!(&rt; copy == fault);
    drop(copy);
    drop(fault);
}
