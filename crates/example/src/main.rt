//! Example: makes a module by hand and judges it over recorded facts, with a good body and with a bad one.
//!
//! The bad body stores a value before it is in scope.
#![tactic(auto)]

ghost use Rattle.std.specs.Prelude.{OnOk};
ghost use Rattle.ir_statements.specs.declared.statements.Statement.{Statement};
ghost use Rattle.naga_module.specs.{EntryPointsAreSound};

use bitflags::Flags;
use naga_below::{
    AddressSpace, Arena, Block, Capabilities, EntryPoint, Expression, Function, GlobalUse,
    GlobalVariable, Handle, Literal, LocalVariable, Members, MemoryDecorations, Module, ModuleInfo,
    Range, Scalar, Sequence, Settings, ShaderStage, ShaderStages, Span, Statement, StructMember,
    SubgroupOperationSet, Type, TypeFlags, TypeInfo, TypeInner, TypeResolution, UniqueArena,
    ValidationFlags,
};
use naga_module::{
    ExpressionFact, Facts, FunctionFact, Given, InfoFact, ModuleFault, Recorded, check_module,
    write_module_fault,
};
use std::alloc::{AllocError, Global};
use std::fmt::Write;

/// Type 0 is u32, type 1 a struct of one.
fn types(alloc: Global) -> Result<UniqueArena<Type>, AllocError> {
    let mut types = UniqueArena::new(alloc);
    let inner = TypeInner::Scalar(Scalar::U32);
    let ty = types.insert(Type { name: None, inner }, Span::UNDEFINED)?;
    let mut members = Members::new(alloc);
    members.push(StructMember {
        name: None,
        ty,
        binding: None,
        offset: 0,
    })?;
    let inner = TypeInner::Struct { members, span: 4 };
    types.insert(Type { name: None, inner }, Span::UNDEFINED)?;
    Ok(types)
}

/// A global of type 1.
fn globals(alloc: Global) -> Result<Arena<GlobalVariable>, AllocError> {
    let mut globals = Arena::new(alloc);
    let counter = GlobalVariable {
        space: AddressSpace::Private,
        binding: None,
        ty: Handle::new(1),
        init: None,
        memory_decorations: MemoryDecorations::empty(),
    };
    globals.append(counter, Span::UNDEFINED)?;
    Ok(globals)
}

/// A local of u32.
fn locals(alloc: Global) -> Result<Arena<LocalVariable>, AllocError> {
    let mut locals = Arena::new(alloc);
    let local = LocalVariable {
        name: None,
        ty: Handle::new(0),
        init: None,
    };
    locals.append(local, Span::UNDEFINED)?;
    Ok(locals)
}

/// The expressions of the function: 0 the global, 1 a pointer to its member, 2 the member's value, 3 a pointer to the
/// local, 4 true.
fn expressions(alloc: Global) -> Result<Arena<Expression>, AllocError> {
    let mut expressions = Arena::new(alloc);
    let base = expressions.append(Expression::GlobalVariable(Handle::new(0)), Span::UNDEFINED)?;
    let pointer = expressions.append(Expression::AccessIndex { base, index: 0 }, Span::UNDEFINED)?;
    expressions.append(Expression::Load { pointer }, Span::UNDEFINED)?;
    expressions.append(Expression::LocalVariable(Handle::new(0)), Span::UNDEFINED)?;
    let literal = Literal {
        scalar: Scalar::BOOL,
        bits: 1,
    };
    expressions.append(Expression::Literal(literal), Span::UNDEFINED)?;
    Ok(expressions)
}

/// `loop { if true { break } }`
fn loop_with_break(alloc: Global) -> Result<Statement, AllocError> {
    let mut accept = Block::new(alloc);
    accept.push(Statement::Break, Span { start: 80, end: 85 })?;
    let test = Statement::If {
        condition: Handle::new(4),
        accept,
        reject: Block::new(alloc),
    };
    let mut body = Block::new(alloc);
    body.push(test, Span { start: 70, end: 90 })?;
    Ok(Statement::Loop {
        body,
        continuing: Block::new(alloc),
        break_if: None,
    })
}

/// Stores the member's value in the local, which is good once that value is emitted, and then loops.
fn body(alloc: Global, emits: bool) -> Result<Block, AllocError> {
    let mut body = Block::new(alloc);
    if emits {
        let loaded = Range::new(Handle::new(1), Handle::new(2));
        body.push(Statement::Emit(loaded), Span { start: 40, end: 45 })?;
    }
    let store = Statement::Store {
        pointer: Handle::new(3),
        value: Handle::new(2),
    };
    body.push(store, Span { start: 50, end: 55 })?;
    body.push(loop_with_break(alloc)?, Span { start: 60, end: 95 })?;
    Ok(body)
}

/// Gives a function its local, its expressions and its body.
fn fill_function(alloc: Global, function: &mut Function, emits: bool) -> Result<(), AllocError> {
    function.local_variables = locals(alloc)?;
    function.expressions = expressions(alloc)?;
    function.body = body(alloc, emits)?;
    Ok(())
}

/// The function of the entry point.
fn function(alloc: Global, emits: bool) -> Result<Function, AllocError> {
    let mut function = Function::new(alloc);
    fill_function(alloc, &mut function, emits)?;
    Ok(function)
}

/// Gives a module the types, the global, and an entry point for the compute stage.
fn fill_module(alloc: Global, module: &mut Module, emits: bool) -> Result<(), AllocError> {
    module.types = types(alloc)?;
    module.global_variables = globals(alloc)?;
    module.entry_points.push(EntryPoint {
        stage: ShaderStage::Compute,
        early_depth_test: None,
        workgroup_size: [64, 1, 1],
        function: function(alloc, emits)?,
        mesh_info: None,
        task_payload: None,
    })
}

/// The module.
fn module(alloc: Global, emits: bool) -> Result<Module, AllocError> {
    let mut module = Module::new(alloc);
    fill_module(alloc, &mut module, emits)?;
    Ok(module)
}

/// A pointer to a type of the module.
fn pointer_to(base: u32, space: AddressSpace) -> TypeResolution {
    let base = Handle::new(base);
    TypeResolution::Value(TypeInner::Pointer { base, space })
}

/// What a layer below the validator says of the function: the type of each expression, how it uses the global, and
/// where it and each of its expressions may run.
fn facts(alloc: Global) -> Result<Facts, AllocError> {
    let types = vec![in alloc;
        pointer_to(1, AddressSpace::Private),
        pointer_to(0, AddressSpace::Private),
        TypeResolution::Handle(Handle::new(0)),
        pointer_to(0, AddressSpace::Function),
        TypeResolution::Value(TypeInner::Scalar(Scalar::BOOL)),
    ]?;
    let uses = vec![in alloc; GlobalUse::READ]?;
    let expressions = vec![in alloc; ExpressionFact::Stages(ShaderStages::ALL); 5]?;
    let mut facts = Facts::new(alloc);
    facts.entry_points.push(FunctionFact::Info(InfoFact {
        types: Sequence::from(types),
        uses: Sequence::from(uses),
        stages: ShaderStages::COMPUTE,
        dual_source_blending: false,
        expressions: Sequence::from(expressions),
    }))?;
    Ok(facts)
}

/// What is known of a type that can be used for everything, and whose layouts are good.
const INFO: TypeInfo = TypeInfo {
    flags: TypeFlags::ALL,
    storage_layout: Ok(4),
    uniform_layout: Ok(4),
    immediates_compatibility: Ok(()),
};

/// What is known of the module: its two types are good, and it has no global expressions.
fn given(alloc: Global) -> Result<Given, AllocError> {
    Ok(Given {
        types: vec![in alloc; INFO, INFO]?,
        global_types: Vec::new(alloc),
    })
}

/// Judges a module over these facts: its infos, or its first fault. All runs of the body of each entry point that is
/// accepted are sound: what they use is live.
fn judge(alloc: Global, module: &Module) -> Result<ModuleInfo, ModuleFault>
    ensures { OnOk result (EntryPointsAreSound «module».now) }
{
    let below = Recorded {
        facts: facts(alloc)?,
    };
    let settings = Settings {
        flags: ValidationFlags::EXPRESSIONS.union(ValidationFlags::BLOCKS),
        capabilities: Capabilities::empty(),
        subgroup_stages: ShaderStages::empty(),
        subgroup_operations: SubgroupOperationSet::empty(),
    };
    check_module(alloc, below, settings, given(alloc)?, module)
}

/// The verdict as a line.
fn told(alloc: Global, verdict: &Result<ModuleInfo, ModuleFault>) -> anyhow::Result<String> {
    let mut line = String::new(alloc);
    match verdict {
        Ok(infos) => {
            for info in infos.entry_points.as_slice() {
                write!(line, "accepted for {:?}", info.available_stages)?;
            }
        }
        Err(fault) => write_module_fault(&mut line, fault)?,
    }
    Ok(line)
}

/// The verdict of the module, as a line.
fn verdict(alloc: Global, emits: bool) -> anyhow::Result<String> {
    let module = module(alloc, emits)?;
    let verdict = judge(alloc, &module);
    let line = told(alloc, &verdict);
    drop(verdict);
    drop(module);
    line
}

fn main(rt: HostRuntime) -> anyhow::Result<()> {
    for emits in [true, false] {
        let line = verdict(rt.alloc(), emits)?;
        println!(rt; "{line}")?;
    }
    Ok(())
}
