//! Globals, entry points and modules.

ghost use Rattle.std.specs.Prelude.{◌≡◌, IfOk, OnOk};
ghost use Rattle.ir_module.specs.Empty.{empty_module};

use crate::expressions::Expression;
use crate::functions::Function;
use ir_arena::arena::Arena;
use ir_arena::duplicate::{Duplicate, duplicates};
use ir_arena::handle::{Handle, Tagged};
use ir_arena::sequence::Sequence;
use ir_arena::tag;
use ir_flags::ir::MemoryDecorations;
use ir_leaves::stage::ShaderStage;
use ir_types::types::{AddressSpace, Type};
use ir_types::unique_arena::UniqueArena;
use std::alloc::{AllocError, Global};

/// The binding of a resource: its group, and its number in the group.
#[derive(Clone, Copy, PartialEq, Eq, PartialOrd, Ord, Hash, Debug)]
pub struct ResourceBinding {
    pub group: u32,
    pub binding: u32,
}

/// A global variable of a module.
///
/// In a module that was accepted with the flag BINDINGS, it has a `binding` exactly if it is in Storage, Uniform or
/// Handle.
#[derive(Clone, Copy, PartialEq, Eq, Debug)]
pub struct GlobalVariable {
    pub space: AddressSpace,
    pub binding: Option<ResourceBinding>,
    pub ty: Handle<tag::Type>,
    /// One of the module's global expressions. In an accepted module it is of the variable's type.
    pub init: Option<Handle<tag::Expression>>,
    pub memory_decorations: MemoryDecorations,
}

impl Tagged for GlobalVariable {
    type Tag = tag::GlobalVariable;
}

/// A constant of a module: its type alone. Its value is not kept.
#[derive(Clone, Copy, PartialEq, Eq, Debug)]
pub struct Constant {
    pub ty: Handle<tag::Type>,
}

impl Tagged for Constant {
    type Tag = tag::Constant;
}

/// A constant that the pipeline may override: its type alone.
#[derive(Clone, Copy, PartialEq, Eq, Debug)]
pub struct Override {
    pub ty: Handle<tag::Type>,
}

impl Tagged for Override {
    type Tag = tag::Override;
}

/// Types of the module with a special use.
#[derive(Clone, Copy, PartialEq, Eq, Debug)]
pub struct SpecialTypes {
    /// The type of the descriptor of a ray.
    pub ray_desc: Option<Handle<tag::Type>>,
}

/// A request to test depth before the fragment stage runs. The number stands for its kind, which isn't read.
#[derive(Clone, Copy, PartialEq, Eq, Hash, Debug)]
pub struct EarlyDepthTest(pub u32);

/// The primitives of a mesh.
#[derive(Clone, Copy, PartialEq, Eq, Hash, Debug)]
pub enum MeshOutputTopology {
    Points,
    Lines,
    Triangles,
}

/// The outputs of a mesh entry point. The two maxima are per workgroup.
///
/// An override takes the place of a maximum. It is one of the module's global expressions. In an accepted module all
/// of this is what the type of the output variable implies.
#[derive(Clone, Copy, PartialEq, Eq, Hash, Debug)]
pub struct MeshStageInfo {
    pub topology: MeshOutputTopology,
    pub max_vertices: u32,
    pub max_vertices_override: Option<Handle<tag::Expression>>,
    pub max_primitives: u32,
    pub max_primitives_override: Option<Handle<tag::Expression>>,
    pub vertex_output_type: Handle<tag::Type>,
    pub primitive_output_type: Handle<tag::Type>,
    pub output_variable: Handle<tag::GlobalVariable>,
}

/// A function that a pipeline runs at a stage.
#[derive(Drop)]
pub struct EntryPoint {
    pub stage: ShaderStage,
    pub early_depth_test: Option<EarlyDepthTest>,
    /// The number of invocations of a workgroup in each of its three dimensions. In an accepted module none is 0 at the
    /// compute, mesh and task stages, and each is 0 at the others.
    pub workgroup_size: [u32; 3],
    pub function: Function,
    /// In an accepted module it is there exactly at the mesh stage.
    pub mesh_info: Option<MeshStageInfo>,
    /// A global of the module. In an accepted module it is in `AddressSpace::TaskPayload`.
    pub task_payload: Option<Handle<tag::GlobalVariable>>,
}

/// A shader module.
#[derive(Drop)]
pub struct Module {
    /// In an accepted module each names only earlier ones.
    pub types: UniqueArena<Type>,
    pub special_types: SpecialTypes,
    pub constants: Arena<Constant>,
    pub overrides: Arena<Override>,
    pub global_variables: Arena<GlobalVariable>,
    /// In an accepted module each names only earlier ones.
    pub global_expressions: Arena<Expression>,
    /// In an accepted module each calls only earlier ones.
    pub functions: Arena<Function>,
    pub entry_points: Sequence<EntryPoint>,
}

impl Duplicate for GlobalVariable {
    fn duplicate(&self, _alloc: Global) -> Result<Self, AllocError> {
        Ok(*self)
    }
}

impl Duplicate for Constant {
    fn duplicate(&self, _alloc: Global) -> Result<Self, AllocError> {
        Ok(*self)
    }
}

impl Duplicate for Override {
    fn duplicate(&self, _alloc: Global) -> Result<Self, AllocError> {
        Ok(*self)
    }
}

impl EntryPoint {
    /// Clones the entry point. An Err is out of memory.
    pub fn clone(&self, alloc: Global) -> Result<Self, AllocError>
        ensures { IfOk result (λ made. made ≡ self.now) }
    {
        Ok(EntryPoint {
            stage: self.stage,
            early_depth_test: self.early_depth_test,
            workgroup_size: self.workgroup_size,
            function: self.function.clone(alloc)?,
            mesh_info: self.mesh_info,
            task_payload: self.task_payload,
        })
    }
}

impl Duplicate for EntryPoint {
    fn duplicate(&self, alloc: Global) -> Result<Self, AllocError> {
        self.clone(alloc)
    }
}

impl Module {
    /// An empty module, which keeps the allocator.
    pub fn new(alloc: Global) -> Self
        ensures { result ≡ empty_module }
    {
        Module {
            types: UniqueArena::new(alloc),
            special_types: SpecialTypes { ray_desc: None },
            constants: Arena::new(alloc),
            overrides: Arena::new(alloc),
            global_variables: Arena::new(alloc),
            global_expressions: Arena::new(alloc),
            functions: Arena::new(alloc),
            entry_points: Sequence::new(alloc),
        }
    }

    /// Clones the module. An Err is out of memory.
    pub fn clone(&self, alloc: Global) -> Result<Self, AllocError>
        ensures { IfOk result (λ made. made ≡ self.now) }
    {
        let mut made = Module::new(alloc);
        match self.clone_to(alloc, &mut made) {
            Ok(()) => Ok(made),
            Err(refused) => {
                drop(made);
                Err(refused)
            }
        }
    }

    /// Clones the module into another, whose parts it replaces. An Err is out of memory.
    fn clone_to(&self, alloc: Global, made: &mut Module) -> Result<(), AllocError>
        ensures { OnOk result (made.new ≡ self.now) }
    {
        made.types = self.types.clone(alloc)?;
        made.special_types = self.special_types;
        made.constants = self.constants.clone(alloc)?;
        made.overrides = self.overrides.clone(alloc)?;
        made.global_variables = self.global_variables.clone(alloc)?;
        made.global_expressions = self.global_expressions.clone(alloc)?;
        made.functions = self.functions.clone(alloc)?;
        let entry_points = duplicates(alloc, self.entry_points.as_slice())?;
        made.entry_points = Sequence::from(entry_points);
        Ok(())
    }
}

/// Drops a module. A crate that drops one itself has the drops of all its parts to prove, and one that calls this has not.
pub fn drop_module(module: Module) {
    drop(module);
}
