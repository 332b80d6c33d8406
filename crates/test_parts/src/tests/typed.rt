//! What no document says of computed types: how types are aligned that nothing holds, and types that name themselves.
//! All else that the `layer_` crates compute is shown by documents of the stored run (`typed`, `computed`).

use crate::tests::{made, put};
use ir_arena::Handle;
use ir_flags::StorageAccess;
use ir_leaves::{ImageDimension, Scalar, ScalarKind, StorageFormat};
use ir_types::{
    AddressSpace, ArraySize, Disalignment, ImageClass, Type, TypeInfo, TypeInner, UniqueArena,
};
use layer_types::infos_of_types;
use std::num::NonZeroU32;
use std::process::Abort;

/// There is no bool of 4 bytes.
const WIDE_BOOL: Scalar = Scalar {
    kind: ScalarKind::Bool,
    width: 4,
};

/// An image of two dimensions.
fn image(class: ImageClass) -> TypeInner {
    TypeInner::Image {
        dim: ImageDimension::D2,
        arrayed: false,
        class,
    }
}

/// A pointer into Function.
fn pointer(base: u32) -> TypeInner {
    TypeInner::Pointer {
        base: Handle::new(base),
        space: AddressSpace::Function,
    }
}

/// A binding array.
fn bindings(base: u32) -> TypeInner {
    TypeInner::BindingArray {
        base: Handle::new(base),
        size: ArraySize::Dynamic,
    }
}

/// The type with a handle. Type 12 names itself.
fn inner_at(ty: u32) -> TypeInner {
    match ty {
        0 => TypeInner::Scalar(Scalar::U32),
        1 => TypeInner::CooperativeMatrix {
            scalar: Scalar::F32,
            detail: 0,
        },
        2 => TypeInner::ValuePointer {
            size: None,
            scalar: Scalar::F32,
            space: AddressSpace::Uniform,
        },
        3 => image(ImageClass::Sampled {
            kind: ScalarKind::Float,
            multi: false,
        }),
        4 => image(ImageClass::Storage {
            format: StorageFormat::R32Uint,
            access: StorageAccess::LOAD,
        }),
        5 => TypeInner::Sampler { comparison: false },
        6 => TypeInner::RayQuery {
            vertex_return: false,
        },
        7 => TypeInner::Array {
            base: Handle::new(0),
            size: ArraySize::Pending(Handle::new(0)),
            stride: 4,
        },
        8 => pointer(0),
        9 => bindings(0),
        10 => TypeInner::Scalar(WIDE_BOOL),
        11 => bindings(10),
        _ => pointer(12),
    }
}

/// The bits of the flags of each, and its alignment; none where it isn't well formed.
static ROWS: [(u8, u32); 13] = [
    (0xff, 4),
    (0xe7, 4),
    (0x26, 1),
    (0x60, 1),
    (0x60, 1),
    (0x60, 1),
    (0xa3, 1),
    (0x57, 4),
    (0x66, 1),
    (0, 1),
    (0, 0),
    (0, 0),
    (0, 0),
];

/// Those of the rows.
fn types_of_rows(rt: &(impl Abort + AllocGlobal)) -> UniqueArena<Type> {
    let mut types = UniqueArena::new(rt.alloc());
    for ty in 0..13 {
        put(rt, &mut types, inner_at(ty));
    }
    types
}

/// The number of the array, whose alignment in a uniform buffer documents show.
const ARRAY: usize = 7;

/// The info is of these flags and this alignment, or of none of the type with this handle.
fn expect_info(rt: &impl Abort, info: &TypeInfo, own: usize, flags: u8, alignment: u32) {
    holds!(rt; info.flags.0 == flags);
    holds!(rt; own <= u32::MAX as usize);
    let layout = if alignment == 0 {
        Err((Handle::new(own as u32), Disalignment(0)))
    } else {
        Ok(alignment)
    };
    holds!(rt; info.storage_layout == layout);
    if own != ARRAY {
        holds!(rt; info.uniform_layout == layout);
    }
}

/// The infos are those of the rows.
fn expect_infos(rt: &impl Abort, infos: &[TypeInfo]) {
    holds!(rt; infos.len() == ROWS.len());
    for (own, info) in infos.iter().enumerate() {
        let (flags, alignment) = ROWS[own % 13];
        expect_info(rt, info, own, flags, alignment);
    }
}

#[test]
fn types_that_nothing_holds(rt: HostRuntime) {
    let types = types_of_rows(&rt);
    let infos = made(&rt, infos_of_types(rt.alloc(), &types));
    drop(types);
    expect_infos(&rt, infos.as_slice());
    drop(infos);
}

/// One item.
fn one(rt: &impl Abort) -> NonZeroU32 {
    match NonZeroU32::new(1) {
        Some(count) => count,
        None => panic!(rt; "no count"),
    }
}

/// So many arrays of one item each, one of the other, over u32.
fn tower(rt: &(impl Abort + AllocGlobal), height: u32) -> UniqueArena<Type> {
    let mut types = UniqueArena::new(rt.alloc());
    put(rt, &mut types, TypeInner::Scalar(Scalar::U32));
    for below in 0..height {
        let inner = TypeInner::Array {
            base: Handle::new(below),
            size: ArraySize::Constant(one(rt)),
            stride: 4,
        };
        put(rt, &mut types, inner);
    }
    types
}

/// The info of the last of many types.
fn expect_last(rt: &impl Abort, infos: &[TypeInfo]) {
    holds!(rt; infos.len() == 100001);
    expect_info(rt, &infos[100000], ARRAY, 0xf7, 4);
}

#[test]
fn types_that_name_each_other_deep(rt: HostRuntime) {
    let types = tower(&rt, 100000);
    let infos = made(&rt, infos_of_types(rt.alloc(), &types));
    drop(types);
    expect_last(&rt, infos.as_slice());
    drop(infos);
}
