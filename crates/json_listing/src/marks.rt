//! The expressions that a statement names, with all that they are made from.

use naga_below::{
    AtomicFunction, Expression, Function, GatherMode, Handle, Operands, RayPipelineFunction,
    RayQueryFunction, Statement, operand, operand_count, tag,
};
use std::alloc::{AllocError, Global};

/// How many expressions an Emit may name so that all are marked.
const SHORT_RANGE: u32 = 20;

/// A mark for each expression of a function.
#[derive(Drop)]
pub(crate) struct Marks {
    marked: Vec<bool>,
}

impl Marks {
    /// No marks for so many expressions. An Err is out of memory.
    pub(crate) fn new(alloc: Global, count: usize) -> Result<Marks, AllocError> {
        let mut marked = Vec::with_capacity(alloc, count)?;
        for _ in 0..count {
            marked.push(false)?;
        }
        Ok(Marks { marked })
    }

    /// Whether there is a mark.
    pub(crate) fn has(&self, index: usize) -> bool {
        match self.marked.as_slice().get(index) {
            Some(mark) => *mark,
            None => false,
        }
    }

    /// Marks an expression.
    pub(crate) fn add(&mut self, handle: Handle<tag::Expression>) {
        if let Some(mark) = self.marked.as_mut_slice().get_mut(handle.index()) {
            *mark = true;
        }
    }

    /// Takes the mark of an expression away.
    pub(crate) fn remove(&mut self, handle: Handle<tag::Expression>) {
        if let Some(mark) = self.marked.as_mut_slice().get_mut(handle.index()) {
            *mark = false;
        }
    }

    /// How many expressions are marked.
    pub(crate) fn count(&self) -> usize {
        let mut count = 0usize;
        for mark in self.marked.as_slice() {
            if *mark {
                count = count.saturating_add(1);
            }
        }
        count
    }

    /// The same marks once more. An Err is out of memory.
    pub(crate) fn copy(&self, alloc: Global) -> Result<Marks, AllocError> {
        let mut marked = Vec::with_capacity(alloc, self.marked.len())?;
        for mark in self.marked.as_slice() {
            marked.push(*mark)?;
        }
        Ok(Marks { marked })
    }

    fn add_if_any(&mut self, handle: Option<Handle<tag::Expression>>) {
        if let Some(handle) = handle {
            self.add(handle);
        }
    }

    fn add_all(&mut self, handles: &Operands) {
        for handle in handles.as_slice() {
            self.add(*handle);
        }
    }

    /// Marks what an expression is made from.
    fn add_operands(&mut self, expression: &Expression) {
        for place in 0..operand_count(expression) {
            self.add_if_any(operand(expression, place));
        }
    }

    /// Marks what each marked expression is made from, in all steps. Operands are earlier expressions.
    pub(crate) fn close(&mut self, function: &Function) {
        let expressions = function.expressions.as_slice();
        for index in (0..expressions.len()).rev() {
            if self.has(index) {
                if let Some(expression) = expressions.get(index) {
                    self.add_operands(expression);
                }
            }
        }
    }

    /// Marks all expressions that a statement names, those of a long Emit too.
    pub(crate) fn add_whole_statement(&mut self, statement: &Statement) {
        match statement {
            Statement::Emit(range) => {
                for index in range.start..range.end {
                    self.add(Handle::new(index));
                }
            }
            _ => self.add_statement(statement),
        }
    }

    /// Marks the expressions that a statement names, but those of the statements that it holds, and those of a long Emit.
    pub(crate) fn add_statement(&mut self, statement: &Statement) {
        match statement {
            Statement::Emit(range) => {
                if range.end.saturating_sub(range.start) <= SHORT_RANGE {
                    for index in range.start..range.end {
                        self.add(Handle::new(index));
                    }
                }
            }
            Statement::If { condition, .. } => self.add(*condition),
            Statement::Switch { selector, .. } => self.add(*selector),
            Statement::Loop { break_if, .. } => self.add_if_any(*break_if),
            Statement::Return { value } => self.add_if_any(*value),
            Statement::Store { pointer, value } => {
                self.add(*pointer);
                self.add(*value);
            }
            Statement::Call {
                arguments,
                result: answer,
                ..
            } => {
                self.add_all(arguments);
                self.add_if_any(*answer);
            }
            Statement::Block(_)
            | Statement::Break
            | Statement::Continue
            | Statement::Kill
            | Statement::ControlBarrier(_)
            | Statement::MemoryBarrier(_) => {}
            _ => self.add_rarer(statement),
        }
    }

    /// The same of the rarer statements.
    fn add_rarer(&mut self, statement: &Statement) {
        match statement {
            Statement::ImageStore {
                image,
                coordinate,
                array_index,
                value,
            } => {
                self.add(*image);
                self.add(*coordinate);
                self.add_if_any(*array_index);
                self.add(*value);
            }
            Statement::Atomic {
                pointer,
                fun,
                value,
                result: answer,
            } => {
                self.add(*pointer);
                self.add_atomic(fun);
                self.add(*value);
                self.add_if_any(*answer);
            }
            Statement::ImageAtomic {
                image,
                coordinate,
                array_index,
                fun,
                value,
            } => {
                self.add(*image);
                self.add(*coordinate);
                self.add_if_any(*array_index);
                self.add_atomic(fun);
                self.add(*value);
            }
            Statement::WorkGroupUniformLoad {
                pointer,
                result: answer,
            } => {
                self.add(*pointer);
                self.add(*answer);
            }
            Statement::CooperativeStore { target, source } => {
                self.add(*target);
                self.add(source.pointer);
            }
            _ => self.add_ray_or_subgroup(statement),
        }
    }

    /// The same of the statements of rays and of subgroups.
    fn add_ray_or_subgroup(&mut self, statement: &Statement) {
        match statement {
            Statement::RayQuery { query, fun } => {
                self.add(*query);
                self.add_query(fun);
            }
            Statement::RayPipelineFunction(
                RayPipelineFunction::TraceRay {
                    acceleration_structure,
                    descriptor,
                    payload,
                },
            ) => {
                self.add(*acceleration_structure);
                self.add(*descriptor);
                self.add(*payload);
            }
            Statement::SubgroupBallot {
                result: answer,
                predicate,
            } => {
                self.add(*answer);
                self.add_if_any(*predicate);
            }
            Statement::SubgroupCollectiveOperation {
                argument,
                result: answer,
                ..
            } => {
                self.add(*argument);
                self.add(*answer);
            }
            Statement::SubgroupGather {
                mode,
                argument,
                result: answer,
            } => {
                self.add_gather(mode);
                self.add(*argument);
                self.add(*answer);
            }
            // The functions above have these.
            Statement::Emit(_)
            | Statement::Block(_)
            | Statement::If { .. }
            | Statement::Switch { .. }
            | Statement::Loop { .. }
            | Statement::Break
            | Statement::Continue
            | Statement::Return { .. }
            | Statement::Kill
            | Statement::ControlBarrier(_)
            | Statement::MemoryBarrier(_)
            | Statement::Store { .. }
            | Statement::ImageStore { .. }
            | Statement::Atomic { .. }
            | Statement::ImageAtomic { .. }
            | Statement::WorkGroupUniformLoad { .. }
            | Statement::Call { .. }
            | Statement::CooperativeStore { .. } => {}
        }
    }

    fn add_atomic(&mut self, fun: &AtomicFunction) {
        if let AtomicFunction::Exchange { compare } = fun {
            self.add_if_any(*compare);
        }
    }

    fn add_query(&mut self, fun: &RayQueryFunction) {
        match fun {
            RayQueryFunction::Initialize {
                acceleration_structure,
                descriptor,
            } => {
                self.add(*acceleration_structure);
                self.add(*descriptor);
            }
            RayQueryFunction::Proceed { result: answer } => self.add(*answer),
            RayQueryFunction::GenerateIntersection { hit_t } => self.add(*hit_t),
            RayQueryFunction::ConfirmIntersection | RayQueryFunction::Terminate => {}
        }
    }

    fn add_gather(&mut self, mode: &GatherMode) {
        match mode {
            GatherMode::BroadcastFirst | GatherMode::QuadSwap(_) => {}
            GatherMode::Broadcast(handle)
            | GatherMode::Shuffle(handle)
            | GatherMode::ShuffleDown(handle)
            | GatherMode::ShuffleUp(handle)
            | GatherMode::ShuffleXor(handle)
            | GatherMode::QuadBroadcast(handle) => self.add(*handle),
        }
    }

    /// Marks the expressions of a range that are made from this one.
    pub(crate) fn add_users(
        &mut self,
        function: &Function,
        start: u32,
        end: u32,
        handle: Handle<tag::Expression>,
    ) {
        for index in start..end {
            let user = Handle::new(index);
            if let Some(expression) = function.expressions.as_slice().get(user.index()) {
                if has_operand(expression, handle) {
                    self.add(user);
                }
            }
        }
    }
}

/// The first expression of a range that is made from another one, in one step.
pub(crate) fn user_in(
    function: &Function,
    start: u32,
    end: u32,
    handle: Handle<tag::Expression>,
) -> Option<Handle<tag::Expression>> {
    for index in start..end {
        let user = Handle::new(index);
        if let Some(expression) = function.expressions.as_slice().get(user.index()) {
            if has_operand(expression, handle) {
                return Some(user);
            }
        }
    }
    None
}

/// Whether an expression is made from another one, in one step.
fn has_operand(expression: &Expression, handle: Handle<tag::Expression>) -> bool {
    for place in 0..operand_count(expression) {
        if operand(expression, place) == Some(handle) {
            return true;
        }
    }
    false
}
