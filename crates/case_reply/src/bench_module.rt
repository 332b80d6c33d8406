//! The modules of the benches.

ghost use Rattle.std.specs.Prelude.{◌≡◌, [], ◌∷◌, IfOk};
ghost use Rattle.case_reply.specs.BenchModule.{bench_types, bench_locals, shared_expressions, bench_expressions, type_of, bench_function, callee_block, callee_function, bench_functions, bench_module};
ghost use Rattle.ir_module.specs.declared.expressions.Expression.TheVariants.{Literal as LiteralOf, Unary};

use case_notation::bench::Bench;
use ir_arena::arena::Arena;
use ir_arena::handle::Handle;
use ir_arena::sequence::Sequence;
use ir_arena::span::Span;
use ir_leaves::scalars::Scalar;
use ir_module::expressions::{Expression, Literal};
use ir_module::functions::{Function, FunctionResult, LocalVariable};
use ir_module::module::Module;
use ir_statements::statements::{Block, Statement};
use ir_types::types::{Type, TypeInner};
use ir_types::unique_arena::UniqueArena;
use std::alloc::{AllocError, Global};

/// A type without a name.
fn type_of(scalar: Scalar) -> Type
    ensures { result ≡ type_of scalar }
{
    Type {
        name: None,
        inner: TypeInner::Scalar(scalar),
    }
}

/// Types 0 bool, 1 u32 and 2 i32.
fn bench_types(alloc: Global) -> Result<UniqueArena<Type>, AllocError>
    ensures { IfOk result (λ types. types ≡ bench_types) }
{
    let mut types = UniqueArena::new(alloc);
    types.insert(type_of(Scalar::BOOL), Span::UNDEFINED)?;
    types.insert(type_of(Scalar::U32), Span::UNDEFINED)?;
    types.insert(type_of(Scalar::I32), Span::UNDEFINED)?;
    Ok(types)
}

/// The variable `v`, of u32.
fn bench_locals(alloc: Global) -> Result<Arena<LocalVariable>, AllocError>
    ensures { IfOk result (λ locals. locals ≡ bench_locals) }
{
    let mut locals = Arena::new(alloc);
    let variable = LocalVariable {
        name: None,
        ty: Handle::new(1),
        init: None,
    };
    locals.append(variable, Span::UNDEFINED)?;
    Ok(locals)
}

/// A literal.
fn literal(scalar: Scalar, bits: u64) -> Expression
    ensures { result ≡ LiteralOf (record { scalar = scalar; bits = bits }) }
{
    Expression::Literal(Literal { scalar, bits })
}

/// A Unary of the expression at this index.
fn unary(alloc: Global, operand: u32) -> Result<Expression, AllocError>
    ensures { IfOk result (λ x. x ≡ Unary 0 (operand ∷ [])) }
{
    let mut operands = Sequence::new(alloc);
    operands.push(Handle::new(operand))?;
    Ok(Expression::Unary {
        operands,
        detail: 0,
    })
}

/// The expressions that all benches have.
fn shared_expressions(alloc: Global) -> Result<Arena<Expression>, AllocError>
    ensures { IfOk result (λ expressions. expressions ≡ shared_expressions) }
{
    let mut expressions = Arena::new(alloc);
    expressions.append(literal(Scalar::BOOL, 1), Span::UNDEFINED)?;
    expressions.append(literal(Scalar::U32, 0), Span::UNDEFINED)?;
    expressions.append(literal(Scalar::I32, 0), Span::UNDEFINED)?;
    expressions.append(unary(alloc, 0)?, Span::UNDEFINED)?;
    expressions.append(Expression::LocalVariable(Handle::new(0)), Span::UNDEFINED)?;
    expressions.append(
        Expression::Load {
            pointer: Handle::new(4),
        },
        Span::UNDEFINED,
    )?;
    Ok(expressions)
}

/// The expressions that the bench's names stand for.
fn bench_expressions(alloc: Global, bench: Bench) -> Result<Arena<Expression>, AllocError>
    ensures { IfOk result (λ expressions. expressions ≡ bench_expressions bench) }
{
    let mut expressions = shared_expressions(alloc)?;
    match bench {
        Bench::P => Ok(expressions),
        Bench::C => {
            expressions.append(Expression::CallResult(Handle::new(0)), Span::UNDEFINED)?;
            Ok(expressions)
        }
        Bench::D => {
            expressions.append(unary(alloc, 5)?, Span::UNDEFINED)?;
            Ok(expressions)
        }
    }
}

/// The bench's function with a body.
fn bench_function(alloc: Global, bench: Bench, body: Block) -> Result<Function, AllocError>
    ensures { IfOk result (λ f. f ≡ bench_function bench body) }
{
    let mut fun = Function::new(alloc);
    fun.local_variables = bench_locals(alloc)?;
    fun.expressions = bench_expressions(alloc, bench)?;
    fun.body = body;
    Ok(fun)
}

/// The statements of `f`: it returns its literal.
#[tactic(auto, unfolding(case_notation::specs::CaseBlocks::list_of, case_notation::specs::CaseBlocks::block_from))]
fn callee_body(alloc: Global) -> Result<Block, AllocError>
    ensures { IfOk result (λ b. b ≡ callee_block) }
{
    let mut body = Block::new(alloc);
    let returned = Statement::Return {
        value: Some(Handle::new(0)),
    };
    body.push(returned, Span::UNDEFINED)?;
    Ok(body)
}

/// The function to call.
fn callee(alloc: Global) -> Result<Function, AllocError>
    ensures { IfOk result (λ f. f ≡ callee_function) }
{
    let mut fun = Function::new(alloc);
    fun.result = Some(FunctionResult {
        ty: Handle::new(1),
        binding: None,
    });
    fun.expressions
        .append(literal(Scalar::U32, 0), Span::UNDEFINED)?;
    fun.body = callee_body(alloc)?;
    Ok(fun)
}

/// The functions of the bench's module.
fn bench_functions(alloc: Global, bench: Bench, body: Block) -> Result<Arena<Function>, AllocError>
    ensures { IfOk result (λ fs. fs ≡ bench_functions bench body) }
{
    let mut functions = Arena::new(alloc);
    match bench {
        Bench::P | Bench::D => {
            functions.append(bench_function(alloc, bench, body)?, Span::UNDEFINED)?;
            Ok(functions)
        }
        Bench::C => {
            functions.append(callee(alloc)?, Span::UNDEFINED)?;
            functions.append(bench_function(alloc, bench, body)?, Span::UNDEFINED)?;
            Ok(functions)
        }
    }
}

/// The bench's module, with a body in its last function.
pub(crate) fn bench_module(alloc: Global, bench: Bench, body: Block) -> Result<Module, AllocError>
    ensures { IfOk result (λ m. m ≡ bench_module bench body) }
{
    let mut made = Module::new(alloc);
    made.types = bench_types(alloc)?;
    made.functions = bench_functions(alloc, bench, body)?;
    Ok(made)
}
