//! Arenas and their clones keep spans. (That a clone is equal is a clause of each.)

use crate::tests::made;
use bitflags::Flags;
use ir_arena::{Arena, Handle, Sequence, Span, Tagged};
use ir_flags::MemoryDecorations;
use ir_leaves::{Scalar, ShaderStage};
use ir_module::module::drop_module;
use ir_module::{
    Constant, EntryPoint, Expression, Function, GlobalVariable, LocalVariable, Module, Override,
    SpecialTypes,
};
use ir_statements::{Block, Statement};
use ir_types::{AddressSpace, Type, TypeInner, UniqueArena};
use std::process::Abort;

const SPAN: Span = Span { start: 4, end: 9 };

/// An arena of one value.
fn arena_of<T: Tagged + Drop>(rt: &(impl Abort + AllocGlobal), value: T) -> Arena<T> {
    let mut arena = Arena::new(rt.alloc());
    made(rt, arena.append(value, SPAN));
    arena
}

/// A block of one statement.
fn block_of(rt: &(impl Abort + AllocGlobal), statement: Statement) -> Block {
    let mut block = Block::new(rt.alloc());
    made(rt, block.push(statement, SPAN));
    block
}

/// A function with one of each: local, expression and statement.
fn function_of_each(rt: &(impl Abort + AllocGlobal)) -> Function {
    let local = LocalVariable {
        name: None,
        ty: Handle::new(3),
        init: None,
    };
    Function {
        arguments: Sequence::new(rt.alloc()),
        result: None,
        local_variables: arena_of(rt, local),
        expressions: arena_of(rt, Expression::FunctionArgument(4)),
        body: block_of(rt, Statement::Kill),
    }
}

/// An arena of one value keeps its span.
fn expect_span<T: Tagged + Drop>(rt: &impl Abort, arena: &Arena<T>) {
    holds!(rt; arena.len() == 1);
    holds!(rt; arena.get_span(Handle::new(0)) == SPAN);
}

/// So does a block of one statement.
fn expect_span_of_statement(rt: &impl Abort, block: &Block) {
    holds!(rt; block.list.len() == 1);
    holds!(rt; block.list[0].span == SPAN);
}

/// The spans of a function are those of `function_of_each`.
fn expect_of_each(rt: &impl Abort, fun: &Function) {
    expect_span(rt, &fun.local_variables);
    expect_span(rt, &fun.expressions);
    expect_span_of_statement(rt, &fun.body);
}

/// One entry point of such a function.
fn entry_points_of_each(rt: &(impl Abort + AllocGlobal)) -> Sequence<EntryPoint> {
    let entry_point = EntryPoint {
        stage: ShaderStage::Task,
        early_depth_test: None,
        workgroup_size: [8, 4, 2],
        function: function_of_each(rt),
        mesh_info: None,
        task_payload: Some(Handle::new(6)),
    };
    let mut entry_points = Sequence::new(rt.alloc());
    made(rt, entry_points.push(entry_point));
    entry_points
}

/// A module of one of each.
fn module_of_each(rt: &(impl Abort + AllocGlobal)) -> Module {
    let mut types = UniqueArena::new(rt.alloc());
    let (name, inner) = (None, TypeInner::Scalar(Scalar::F32));
    made(rt, types.insert(Type { name, inner }, SPAN));
    let global = GlobalVariable {
        space: AddressSpace::Private,
        binding: None,
        ty: Handle::new(5),
        init: None,
        memory_decorations: MemoryDecorations::empty(),
    };
    Module {
        types,
        special_types: SpecialTypes {
            ray_desc: Some(Handle::new(0)),
        },
        constants: arena_of(rt, Constant { ty: Handle::new(7) }),
        overrides: arena_of(rt, Override { ty: Handle::new(8) }),
        global_variables: arena_of(rt, global),
        global_expressions: arena_of(rt, Expression::ZeroValue(Handle::new(9))),
        functions: arena_of(rt, function_of_each(rt)),
        entry_points: entry_points_of_each(rt),
    }
}

/// The spans of the module are those of `module_of_each`.
fn expect_spans(rt: &impl Abort, module: &Module) {
    holds!(rt; module.types.len() == 1);
    holds!(rt; module.types.get_span(Handle::new(0)) == SPAN);
    expect_span(rt, &module.constants);
    expect_span(rt, &module.overrides);
    expect_span(rt, &module.global_variables);
    expect_span(rt, &module.global_expressions);
    expect_span(rt, &module.functions);
    holds!(rt; module.functions.len() == 1);
    expect_of_each(rt, &module.functions[Handle::new(0)]);
    holds!(rt; module.entry_points.len() == 1);
    expect_of_each(rt, &module.entry_points[0].function);
}

#[test]
fn a_module(rt: HostRuntime) {
    let module = module_of_each(&rt);
    let copy = made(&rt, module.clone(rt.alloc()));
    drop_module(module);
    expect_spans(&rt, &copy);
    drop_module(copy);
}
