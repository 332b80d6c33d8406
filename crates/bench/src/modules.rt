//! Modules round the functions.

use crate::bodies::{Shape, callee, function};
use crate::maker::Maker;
use naga_below::{
    AddressSpace, Arena, Binding, EntryPoint, Expression, Function, FunctionArgument,
    GlobalVariable, Handle, Interpolation, MemoryDecorations, Module, ModuleInfo, Scalar,
    ShaderStage, Span, Type, TypeInner, UniqueArena,
};
use std::alloc::{AllocError, Global};

/// A module, and the infos of those of its functions that were judged.
#[derive(Drop)]
pub(crate) struct Program {
    pub module: Module,
    pub infos: ModuleInfo,
}

impl Program {
    /// A module without parts.
    pub fn new(alloc: Global) -> Program {
        Program {
            module: Module::new(alloc),
            infos: ModuleInfo::new(alloc),
        }
    }
}

fn insert(types: &mut UniqueArena<Type>, scalar: Scalar) -> Result<(), AllocError> {
    if types.is_full() {
        return Err(AllocError);
    }
    let inner = TypeInner::Scalar(scalar);
    types.insert(Type { name: None, inner }, Span::UNDEFINED)?;
    Ok(())
}

/// `bool`, `u32` and `i32`.
fn put_types(types: &mut UniqueArena<Type>) -> Result<(), AllocError> {
    insert(types, Scalar::BOOL)?;
    insert(types, Scalar::U32)?;
    insert(types, Scalar::I32)
}

/// Appends a function where there is room.
fn append(functions: &mut Arena<Function>, function: Function) -> Result<(), AllocError> {
    if functions.is_full() {
        drop(function);
        return Err(AllocError);
    }
    functions.append(function, Span::UNDEFINED)?;
    Ok(())
}

/// Gives a module the types, the function that is called and, after it, so many functions of a shape.
pub(crate) fn fill_module(
    alloc: Global,
    module: &mut Module,
    shape: Shape,
    count: u32,
) -> Result<(), AllocError> {
    put_types(&mut module.types)?;
    append(&mut module.functions, callee(alloc)?)?;
    for _ in 0..count {
        append(&mut module.functions, function(alloc, shape)?)?;
    }
    Ok(())
}

/// A varying at a location.
fn varying(location: u32) -> FunctionArgument {
    let binding = Some(Binding::Location {
        location,
        interpolation: Some(Interpolation::Flat),
        sampling: None,
        blend_src: None,
        per_primitive: false,
    });
    FunctionArgument {
        name: None,
        ty: Handle::new(1),
        binding,
    }
}

/// A function that takes in so many varyings, from a location on, and names so many globals.
fn entry_function(
    alloc: Global,
    first: u32,
    varyings: u32,
    globals: u32,
) -> Result<Function, AllocError> {
    let mut maker = Maker::new(alloc);
    for index in 0..varyings {
        maker.push_argument(varying(first.wrapping_add(index)));
    }
    for index in 0..globals {
        maker.append(Expression::GlobalVariable(Handle::new(index)));
    }
    maker.finish()
}

/// So many private globals.
fn put_globals(globals: &mut Arena<GlobalVariable>, count: u32) -> Result<(), AllocError> {
    for _ in 0..count {
        if globals.is_full() {
            return Err(AllocError);
        }
        let global = GlobalVariable {
            space: AddressSpace::Private,
            binding: None,
            ty: Handle::new(1),
            init: None,
            memory_decorations: MemoryDecorations(0),
        };
        globals.append(global, Span::UNDEFINED)?;
    }
    Ok(())
}

/// Gives a module the types, so many private globals, and a fragment shader that takes in so many varyings, from a location on,
/// and uses all globals.
pub(crate) fn fill_entry(
    alloc: Global,
    module: &mut Module,
    first: u32,
    varyings: u32,
    globals: u32,
) -> Result<(), AllocError> {
    put_types(&mut module.types)?;
    put_globals(&mut module.global_variables, globals)?;
    module.entry_points.push(EntryPoint {
        stage: ShaderStage::Fragment,
        early_depth_test: None,
        workgroup_size: [0; 3],
        function: entry_function(alloc, first, varyings, globals)?,
        mesh_info: None,
        task_payload: None,
    })
}
