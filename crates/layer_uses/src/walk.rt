//! The uses of globals by the statements of a body.

ghost use Rattle.std.specs.Prelude.{◌≡◌};
ghost use Rattle.std.specs.Option.{option_copied};
ghost use Rattle.ir_statements.specs.View.{no_operands, tree_of, body_of, list_body, list_cases};
ghost use Rattle.layer_uses.specs.Walk.{call_use, argument_uses, callee_uses, query_uses, pipeline_uses, call_uses, statement_uses, body_uses, cases_uses};

use crate::joins::{join, join_all};
use crate::roots::{Root, root_at};
use bitflags::Flags;
use ir_arena::handle::Handle;
use ir_arena::tag;
use ir_facts::valid::info::{FunctionInfo, ModuleInfo};
use ir_flags::valid::GlobalUse;
use ir_module::module::GlobalVariable;
use ir_statements::operations::{RayPipelineFunction, RayQueryFunction};
use ir_statements::statements::{Block, Located, Statement, SwitchCase};
use ir_types::types::AddressSpace;

/// Read and written.
const BOTH: GlobalUse = GlobalUse(0x3);

/// How a global is used that is given to a call: a resource is read, what is pointed to is read and written.
fn call_use(globals: &[GlobalVariable], root: &Root) -> GlobalUse
    ensures { result ≡ call_use globals.now root.now }
{
    let Some(global) = root else {
        return BOTH;
    };
    match globals.get(global.index()) {
        Some(variable) => match variable.space {
            AddressSpace::Handle => GlobalUse::READ,
            AddressSpace::Function
            | AddressSpace::Private
            | AddressSpace::WorkGroup
            | AddressSpace::Uniform
            | AddressSpace::Storage { .. }
            | AddressSpace::Immediate
            | AddressSpace::TaskPayload
            | AddressSpace::RayPayload
            | AddressSpace::IncomingRayPayload => BOTH,
        },
        None => BOTH,
    }
}

/// The uses of the arguments of a call.
#[tactic(auto, unfolding(crate::specs::Walk::argument_uses))]
fn use_arguments(
    globals: &[GlobalVariable],
    roots: &[Root],
    uses: &mut Vec<GlobalUse>,
    arguments: &[Handle<tag::Expression>],
)
    ensures { uses.new.items ≡ argument_uses globals.now roots.now uses.old.items arguments.now }
{
    for argument in arguments {
        let root = root_at(roots, *argument);
        let more = call_use(globals, &root);
        join(uses, root, more);
    }
}

/// Those of the function that is called, where its info is there.
fn use_callee(uses: &mut Vec<GlobalUse>, info: Option<&FunctionInfo>)
    ensures { uses.new.items ≡ callee_uses uses.old.items (option_copied info.entry) }
{
    if let Some(info) = info {
        join_all(uses, info.global_uses.as_slice());
    }
}

/// Those of a call.
fn use_call(
    globals: &[GlobalVariable],
    infos: &ModuleInfo,
    roots: &[Root],
    uses: &mut Vec<GlobalUse>,
    function: Handle<tag::Function>,
    arguments: &[Handle<tag::Expression>],
)
    ensures { uses.new.items ≡ call_uses globals.now infos.now roots.now uses.old.items function arguments.now }
{
    use_callee(uses, infos.functions.as_slice().get(function.index()));
    use_arguments(globals, roots, uses, arguments);
}

/// Those of a step of a ray query.
fn use_query(roots: &[Root], uses: &mut Vec<GlobalUse>, fun: &RayQueryFunction)
    ensures { uses.new.items ≡ query_uses roots.now uses.old.items fun.now }
{
    match fun {
        RayQueryFunction::Initialize {
            acceleration_structure,
            ..
        } => join(
            uses,
            root_at(roots, *acceleration_structure),
            GlobalUse::READ,
        ),
        RayQueryFunction::Proceed { .. }
        | RayQueryFunction::GenerateIntersection { .. }
        | RayQueryFunction::ConfirmIntersection
        | RayQueryFunction::Terminate => {}
    }
}

/// Those of a ray that is traced.
fn use_pipeline(roots: &[Root], uses: &mut Vec<GlobalUse>, fun: &RayPipelineFunction)
    ensures { uses.new.items ≡ pipeline_uses roots.now uses.old.items fun.now }
{
    match fun {
        RayPipelineFunction::TraceRay {
            acceleration_structure,
            payload,
            ..
        } => {
            join(
                uses,
                root_at(roots, *acceleration_structure),
                GlobalUse::READ,
            );
            join(uses, root_at(roots, *payload), BOTH);
        }
    }
}

/// Those of a block, at any depth.
#[cycle(uses)]
pub(crate) fn use_block(
    globals: &[GlobalVariable],
    infos: &ModuleInfo,
    roots: &[Root],
    uses: &mut Vec<GlobalUse>,
    block: &Block,
)
    ensures { uses.new.items ≡ body_uses globals.now infos.now roots.now uses.old.items (body_of no_operands block.now) }
{
    use_list(globals, infos, roots, uses, block.list.as_slice());
}

#[cycle(uses)]
fn use_list(
    globals: &[GlobalVariable],
    infos: &ModuleInfo,
    roots: &[Root],
    uses: &mut Vec<GlobalUse>,
    list: &[Located],
)
    ensures { uses.new.items ≡ body_uses globals.now infos.now roots.now uses.old.items (list_body no_operands list.now) }
{
    for located in list {
        use_statement(globals, infos, roots, uses, located);
    }
}

#[cycle(uses)]
fn use_cases(
    globals: &[GlobalVariable],
    infos: &ModuleInfo,
    roots: &[Root],
    uses: &mut Vec<GlobalUse>,
    cases: &[SwitchCase],
)
    ensures { uses.new.items ≡ cases_uses globals.now infos.now roots.now uses.old.items (list_cases no_operands cases.now) }
{
    for case in cases {
        use_block(globals, infos, roots, uses, &case.body);
    }
}

#[cycle(uses)]
fn use_statement(
    globals: &[GlobalVariable],
    infos: &ModuleInfo,
    roots: &[Root],
    uses: &mut Vec<GlobalUse>,
    located: &Located,
)
    ensures { let tree = tree_of no_operands located.now.statement located.now.span in
        uses.new.items ≡ statement_uses globals.now infos.now roots.now uses.old.items tree }
{
    let statement = &located.statement;
    match statement {
        Statement::Block(block) => use_block(globals, infos, roots, uses, block),
        Statement::If { accept, reject, .. } => {
            use_block(globals, infos, roots, uses, accept);
            use_block(globals, infos, roots, uses, reject);
        }
        Statement::Switch { cases, .. } => {
            use_cases(globals, infos, roots, uses, cases.as_slice());
        }
        Statement::Loop {
            body,
            continuing,
            ..
        } => {
            use_block(globals, infos, roots, uses, body);
            use_block(globals, infos, roots, uses, continuing);
        }
        Statement::Store { pointer, .. } => {
            join(uses, root_at(roots, *pointer), GlobalUse::WRITE);
        }
        Statement::ImageStore { image, .. } => {
            join(uses, root_at(roots, *image), GlobalUse::WRITE);
        }
        Statement::Atomic { pointer, .. } => join(uses, root_at(roots, *pointer), BOTH),
        Statement::ImageAtomic { image, .. } => {
            join(uses, root_at(roots, *image), GlobalUse::ATOMIC);
        }
        Statement::WorkGroupUniformLoad { pointer, .. } => {
            join(uses, root_at(roots, *pointer), GlobalUse::READ);
        }
        Statement::Call {
            function,
            arguments,
            ..
        } => use_call(globals, infos, roots, uses, *function, arguments.as_slice()),
        Statement::RayQuery { fun, .. } => use_query(roots, uses, fun),
        Statement::CooperativeStore { source, .. } => {
            join(uses, root_at(roots, source.pointer), GlobalUse::WRITE);
        }
        Statement::RayPipelineFunction(fun) => use_pipeline(roots, uses, fun),
        Statement::Emit(_)
        | Statement::Break
        | Statement::Continue
        | Statement::Return { .. }
        | Statement::Kill
        | Statement::ControlBarrier(_)
        | Statement::MemoryBarrier(_)
        | Statement::SubgroupBallot { .. }
        | Statement::SubgroupCollectiveOperation { .. }
        | Statement::SubgroupGather { .. } => {}
    }
}
