//! The plain layer, asked by code over any lower layer, which knows its laws alone.

ghost use Rattle.std.specs.Prelude.{◌≡◌, ◌<◌, length};
ghost use Rattle.ir_types.specs.Types.{ResolutionFits};
ghost use Rattle.ir_facts.specs.Lawful.{IsNoStruct};

use crate::tests::layers::{HERE, LITERAL, add, composed, expect_kinds, function_of, unary};
use crate::tests::{made, put};
use bitflags::Flags;
use ir_arena::{Arena, Handle, Refusal, tag};
use ir_errors::FunctionError;
use ir_facts::{Below, FunctionInfo, ModuleInfo, Settings};
use ir_flags::{
    Capabilities, GlobalUse, MemoryDecorations, ShaderStages, SubgroupOperationSet, ValidationFlags,
};
use ir_leaves::{Scalar, VectorSize};
use ir_module::module::drop_module;
use ir_module::{Expression, Function, GlobalVariable, Module};
use ir_types::{AddressSpace, Type, TypeInner, TypeResolution, UniqueArena};
use naga_layers::Plain;
use std::alloc::Global;
use std::process::Abort;

/// No check, and a target that can do nothing.
pub(crate) fn settings() -> Settings {
    Settings {
        flags: ValidationFlags::empty(),
        capabilities: Capabilities::empty(),
        subgroup_stages: ShaderStages::empty(),
        subgroup_operations: SubgroupOperationSet::empty(),
    }
}

/// What a layer is asked about: a function of a module, after the functions of these infos.
#[derive(Clone, Copy)]
struct Subject<'a> {
    fun: &'a Function,
    program: &'a Module,
    mod_info: &'a ModuleInfo,
}

/// Whether a type is a struct: as a value it is none.
fn is_struct(resolution: &TypeResolution, types: &UniqueArena<Type>) -> bool
    requires there { ResolutionFits (length types.now) resolution.now }
    requires no_struct { IsNoStruct resolution.now }
{
    if let TypeResolution::Value(inner) = resolution {
        prove!(!matches!(inner, TypeInner::Struct { .. }));
    }
    matches!(resolution.inner_with(types), TypeInner::Struct { .. })
}

/// The info of a function, with one more use of a global: by the laws the expression has a type, the type is there, it is no
/// struct as a value, and the global has a use. It is no struct at all.
fn with_query<B: Below>(
    rt: &(impl Abort + AllocGlobal),
    below: &B,
    subject: &Subject,
    handle: Handle<tag::Expression>,
    global: Handle<tag::GlobalVariable>,
) -> FunctionInfo
    requires expression { handle < length subject.now.fun.now.expressions }
    requires global { global < length subject.now.program.now.global_variables }
{
    let Subject {
        fun,
        program,
        mod_info,
    } = *subject;
    let (flags, none) = (ValidationFlags::empty(), Capabilities::empty());
    let answer = below.process_function(rt.alloc(), fun, program, mod_info, flags, none);
    let mut info = match answer {
        Ok(info) => info,
        Err(_) => panic!(rt; "no info"),
    };
    info.insert_global_use(GlobalUse::QUERY, global);
    holds!(rt; !is_struct(&info.expression_types[handle.index()], &program.types));
    info
}

/// The expression is a constant: by the last law it has a kind.
fn expect_constant<B: Below>(
    rt: &(impl Abort + AllocGlobal),
    below: &B,
    fun: &Function,
    handle: Handle<tag::Expression>,
)
    requires { handle < length fun.now.expressions }
{
    let kinds = match below.kinds(rt.alloc(), &fun.expressions) {
        Ok(kinds) => kinds,
        Err(_) => panic!(rt; "no memory"),
    };
    holds!(rt; kinds.is_const(handle));
    drop(kinds);
}

/// The stages of an expression.
fn stages<B: Below>(
    rt: &(impl Abort + AllocGlobal),
    below: &B,
    subject: &Subject,
    info: &FunctionInfo,
    handle: Handle<tag::Expression>,
) -> ShaderStages {
    let kinds = made(rt, below.kinds(rt.alloc(), &subject.fun.expressions));
    let answer = below.validate_expression(
        rt.alloc(),
        settings(),
        handle,
        subject.fun,
        subject.program,
        info,
        subject.mod_info,
        &kinds,
    );
    drop(kinds);
    made(rt, answer)
}

/// The type that a layer gives of a global as the output of a mesh shader is of one byte.
fn expect_output<B: Below>(
    rt: &(impl Abort + AllocGlobal),
    below: &B,
    module: &Module,
    global: Handle<tag::GlobalVariable>,
) {
    let analysis = made(
        rt,
        below.analyze_mesh_shader_info(rt.alloc(), module, global),
    );
    let size = below.type_size(module, analysis.implied.vertex_output_type);
    holds!(rt; size == Some(1));
}

/// Puts a global of u32 last.
fn add_global(rt: &impl Abort, globals: &mut Arena<GlobalVariable>) {
    if globals.is_full() {
        panic!(rt; "full");
    }
    let global = GlobalVariable {
        space: AddressSpace::Private,
        binding: None,
        ty: Handle::new(1),
        init: None,
        memory_decorations: MemoryDecorations::empty(),
    };
    made(rt, globals.append(global, HERE));
}

/// Fills a module with types 0 bool, 1 u32 and 2 i32, and two globals of u32.
fn put_scalars(rt: &impl Abort, module: &mut Module) {
    put(rt, &mut module.types, TypeInner::Scalar(Scalar::BOOL));
    put(rt, &mut module.types, TypeInner::Scalar(Scalar::U32));
    put(rt, &mut module.types, TypeInner::Scalar(Scalar::I32));
    add_global(rt, &mut module.global_variables);
    add_global(rt, &mut module.global_variables);
}

/// Appends the expressions that the plain layer types.
fn add_typed(rt: &(impl Abort + AllocGlobal), expressions: &mut Arena<Expression>) {
    add(rt, expressions, LITERAL);
    add(rt, expressions, unary(rt, &[0]));
    add(rt, expressions, composed(rt, &[]));
    add(rt, expressions, Expression::SubgroupBallotResult);
    add(rt, expressions, Expression::RayQueryProceedResult);
    add(rt, expressions, Expression::GlobalVariable(Handle::new(1)));
}

/// Whether this is the type of the expression with an index.
fn is_type_at(found: &TypeResolution, index: usize) -> bool {
    match found {
        TypeResolution::Handle(ty) => index == 2 && ty.index() == 2,
        TypeResolution::Value(TypeInner::Scalar(scalar)) => match index {
            0 | 1 => *scalar == Scalar::U32,
            4 => *scalar == Scalar::BOOL,
            _ => false,
        },
        TypeResolution::Value(TypeInner::Vector { size, scalar }) => {
            index == 3 && *size == VectorSize::Quad && *scalar == Scalar::U32
        }
        TypeResolution::Value(TypeInner::Pointer { base, space }) => {
            index == 5 && base.index() == 1 && *space == AddressSpace::Private
        }
        TypeResolution::Value(_) => false,
    }
}

/// The info has these types, and the second global is read, and queried as was added.
fn expect_info(rt: &impl Abort, info: &FunctionInfo) {
    holds!(rt; info.expression_types.len() == 6);
    for (index, found) in info.expression_types.as_slice().iter().enumerate() {
        holds!(rt; is_type_at(found, index));
    }
    let uses = [
        GlobalUse::empty(),
        GlobalUse(GlobalUse::READ.0 | GlobalUse::QUERY.0),
    ];
    holds!(rt; info.global_uses.as_slice() == uses.as_slice());
}

/// Asks of the first expression and the second global.
fn expect_answers(rt: &(impl Abort + AllocGlobal), subject: &Subject) {
    let plain = Plain::without_mesh_shaders();
    let (handle, global) = (Handle::new(0), Handle::new(1));
    holds!(rt; subject.fun.expressions.len() == 6);
    holds!(rt; subject.program.global_variables.len() == 2);
    expect_constant(rt, &plain, subject.fun, handle);
    expect_output(rt, &plain, subject.program, global);
    let info = with_query(rt, &plain, subject, handle, global);
    expect_info(rt, &info);
    let left = stages(rt, &plain, subject, &info, handle);
    drop(info);
    holds!(rt; left == ShaderStages::ALL);
}

/// Asks of a function.
fn ask(rt: &(impl Abort + AllocGlobal), fun: &Function, program: &Module) {
    let infos = ModuleInfo::new(rt.alloc());
    let subject = Subject {
        fun,
        program,
        mod_info: &infos,
    };
    expect_answers(rt, &subject);
    drop(infos);
}

/// Whether an answer is a refusal. None is out of memory.
fn is_refused(answer: &Result<FunctionInfo, Refusal<FunctionError>>) -> Option<bool> {
    match answer {
        Ok(_) => Some(false),
        Err(Refusal::Fault(_)) => Some(true),
        Err(Refusal::Memory) => None,
    }
}

/// Whether a function is refused. None is out of memory.
fn refusal_of(alloc: Global, fun: &Function, module: &Module) -> Option<bool> {
    let infos = ModuleInfo::new(alloc);
    let flags = ValidationFlags::empty();
    let none = Capabilities::empty();
    let plain = Plain::without_mesh_shaders();
    let answer = plain.process_function(alloc, fun, module, &infos, flags, none);
    drop(infos);
    let refused = is_refused(&answer);
    drop(answer);
    refused
}

/// An expression has no type in the plain layer. Where memory is refused, the layer is asked again.
fn expect_refused(rt: &(impl Abort + AllocGlobal), module: &Module, expression: Expression) {
    let fun = function_of(rt, expression);
    let refused = match refusal_of(rt.alloc(), &fun, module) {
        None => refusal_of(rt.alloc(), &fun, module),
        answer => answer,
    };
    drop(fun);
    holds!(rt; refused == Some(true));
}

#[test]
fn a_lawful_layer_answers(rt: HostRuntime) {
    let mut module = Module::new(rt.alloc());
    put_scalars(&rt, &mut module);
    let mut fun = Function::new(rt.alloc());
    add_typed(&rt, &mut fun.expressions);
    ask(&rt, &fun, &module);
    expect_refused(&rt, &module, Expression::ZeroValue(Handle::new(3)));
    expect_refused(&rt, &module, Expression::FunctionArgument(0));
    drop(fun);
    drop_module(module);
}

#[test]
fn kinds(rt: HostRuntime) {
    expect_kinds(&rt, &Plain::without_mesh_shaders());
}
