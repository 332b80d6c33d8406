//! The inputs and outputs of a stage, that is arguments, result and mesh outputs: naga 30.0.1's `VaryingContext`.

ghost use Rattle.std.specs.Prelude.{◌≡◌, ◌<◌, ◌≤◌, ◌||◌, ◌&&◌, ◌==◌, not, ℕ, None, OnOk, OnErr};
ghost use Rattle.std.specs.BTreeSet.{contains as set_contains};
ghost use Rattle.check_varyings.specs.BuiltIns.{canonical};
ghost use Rattle.check_varyings.specs.CodeVaryings.{far_less, far_location, seen_more, with_location};
ghost use Rattle.check_varyings.specs.Varyings.{far_in, nothing_seen, seen_by, seen_in, without_built_ins};

use crate::built_in_number::number_of;
use crate::small_set::SmallSet;
use ir_flags::capabilities::Capabilities;
use ir_flags::valid::ValidationFlags;
use ir_leaves::bindings::Binding;
use ir_leaves::built_in::BuiltIn;
use ir_leaves::stage::ShaderStage;
use std::alloc::{AllocError, Global};
use std::collections::BTreeSet;

/// Which output of a mesh an item is, if it is one.
#[derive(Clone, Copy, PartialEq, Eq, Hash, Debug)]
pub enum MeshOutputType {
    Neither,
    VertexOutput,
    PrimitiveOutput,
}

/// The place of an item: the stage, whether it is an output, and whether it is an output of a mesh.
///
/// It also has what the checks need: whether the entry point has a task payload, the workgroup size (invocations in
/// each dimension), the target's capabilities, and which checks run.
#[derive(Clone, Copy, PartialEq, Eq, Hash, Debug)]
pub struct VaryingPlace {
    pub stage: ShaderStage,
    pub output: bool,
    pub mesh_output: MeshOutputType,
    pub has_task_payload: bool,
    pub workgroup_size: [u32; 3],
    pub capabilities: Capabilities,
    pub flags: ValidationFlags,
}

/// The locations and built-ins of the items of a group so far. It keeps its allocator.
///
/// Built-ins are stored with `invariant` and `perspective` cleared. A location from 64 on takes memory.
#[derive(Drop)]
pub struct VaryingState {
    near: Near,
    // the locations from 64 on
    far: BTreeSet<u32>,
}

/// What a state keeps without memory: the locations below 64, and the built-ins by their numbers.
#[derive(Clone, Copy)]
pub(crate) struct Near {
    locations: SmallSet,
    built_ins: SmallSet,
}

impl VaryingState {
    /// An empty state, which keeps the allocator.
    #[tactic(auto, using(crate::proofs::Kept::nothing_by))]
    pub fn new(alloc: Global) -> VaryingState
        ensures { seen_in result ≡ nothing_seen }
    {
        VaryingState {
            near: Near {
                locations: SmallSet::new(),
                built_ins: SmallSet::new(),
            },
            far: BTreeSet::new(alloc),
        }
    }

    /// Whether a location is taken.
    pub fn has_location(&self, location: u32) -> bool
        ensures { result ≡ (seen_in self.now).locations location }
    {
        if location < 64 {
            self.near.locations.contains(location)
        } else {
            self.far.contains(&location)
        }
    }

    /// Whether a built-in is there. It must have `invariant` and `perspective` cleared.
    pub fn has_built_in(&self, built_in: BuiltIn) -> bool
        ensures { result ≡ (seen_in self.now).built_ins built_in }
    {
        self.near.built_ins.contains(number_of(built_in))
    }

    /// Drops the built-ins and keeps the locations, as from one output of a mesh to the other.
    pub fn clear_built_ins(&mut self)
        ensures { seen_in self.new ≡ without_built_ins (seen_in self.old) }
    {
        self.near.built_ins = SmallSet::new();
    }

    /// What is kept without memory.
    pub(crate) fn near(&self) -> Near
        ensures { result ≡ self.now.near }
    {
        self.near
    }

    /// Takes a location below 64.
    pub(crate) fn put_low(&mut self, location: u32)
        requires { location < 64 }
        ensures seen { seen_in self.new ≡ with_location (seen_in self.old) location }
        ensures far { self.new.far ≡ self.old.far }
    {
        self.near.locations.insert(location);
    }

    /// Takes a location from 64 on. A refused call leaves the state as it was.
    pub(crate) fn put_far(&mut self, location: u32) -> Result<(), AllocError>
        requires { 64 ≤ location }
        ensures put { OnOk result (seen_in self.new ≡ with_location (seen_in self.old) location) }
        ensures err { OnErr result (seen_in self.new ≡ seen_in self.old) }
        ensures far { OnOk result ((l : ℕ) → far_in self.new l ≡ (far_in self.old l || (l == location))) }
        ensures far_err { OnErr result ((l : ℕ) → far_in self.new l ≡ far_in self.old l) }
    {
        insert(&mut self.far, location)
    }

    /// Puts in what is bound, which takes no memory.
    pub(crate) fn put_near(&mut self, binding: Binding)
        requires { far_location binding ≡ None }
        ensures seen { seen_in self.new ≡ seen_more (seen_in self.old) binding }
        ensures far { self.new.far ≡ self.old.far }
    {
        match binding {
            Binding::BuiltIn(built_in) => {
                self.near.built_ins.insert(number_of(canonical(built_in)));
            }
            Binding::Location { location, .. } => self.put_low(location),
        }
    }

    /// Puts in what is bound. A refused call leaves the state as it was.
    pub(crate) fn put(&mut self, binding: Binding) -> Result<(), AllocError>
        ensures put { OnOk result (seen_in self.new ≡ seen_more (seen_in self.old) binding) }
        ensures err { OnErr result (seen_in self.new ≡ seen_in self.old) }
    {
        match far_location(binding) {
            Some(location) => self.put_far(location),
            None => {
                self.put_near(binding);
                Ok(())
            }
        }
    }

    /// Goes back to what was kept without memory, and takes out these locations from 64 on.
    pub(crate) fn go_back(&mut self, near: Near, added: &[u32])
        ensures { seen_in self.new ≡ seen_by near (far_less (far_in self.old) added.now) }
    {
        self.near = near;
        for &location in added {
            remove(&mut self.far, location);
        }
    }
}

/// The location that is bound, if it takes memory.
pub(crate) fn far_location(binding: Binding) -> Option<u32>
    ensures { result ≡ far_location binding }
{
    match binding {
        Binding::BuiltIn(_) => None,
        Binding::Location { location, .. } => if location < 64 { None } else { Some(location) },
    }
}

/// A built-in with `invariant` and `perspective` cleared, as duplicates are looked for.
pub(crate) fn canonical(built_in: BuiltIn) -> BuiltIn
    ensures { result ≡ canonical built_in }
{
    match built_in {
        BuiltIn::Position { .. } => BuiltIn::Position { invariant: false },
        BuiltIn::Barycentric { .. } => BuiltIn::Barycentric { perspective: false },
        BuiltIn::BaseInstance
        | BuiltIn::BaseVertex
        | BuiltIn::VertexIndex
        | BuiltIn::InstanceIndex
        | BuiltIn::DrawIndex
        | BuiltIn::ClipDistances
        | BuiltIn::CullDistance
        | BuiltIn::PointSize
        | BuiltIn::PointCoord
        | BuiltIn::ViewIndex
        | BuiltIn::FragDepth
        | BuiltIn::FrontFacing
        | BuiltIn::PrimitiveIndex
        | BuiltIn::SampleIndex
        | BuiltIn::SampleMask
        | BuiltIn::LocalInvocationIndex
        | BuiltIn::GlobalInvocationId
        | BuiltIn::LocalInvocationId
        | BuiltIn::WorkGroupId
        | BuiltIn::WorkGroupSize
        | BuiltIn::NumWorkGroups
        | BuiltIn::NumSubgroups
        | BuiltIn::SubgroupId
        | BuiltIn::SubgroupSize
        | BuiltIn::SubgroupInvocationId
        | BuiltIn::CullPrimitive
        | BuiltIn::PointIndex
        | BuiltIn::LineIndices
        | BuiltIn::TriangleIndices
        | BuiltIn::MeshTaskSize
        | BuiltIn::RayInvocationId
        | BuiltIn::NumRayInvocations
        | BuiltIn::InstanceCustomData
        | BuiltIn::GeometryIndex
        | BuiltIn::HitKind
        | BuiltIn::WorldRayOrigin
        | BuiltIn::WorldRayDirection
        | BuiltIn::ObjectRayOrigin
        | BuiltIn::ObjectRayDirection
        | BuiltIn::RayTmin
        | BuiltIn::RayTCurrentMax
        | BuiltIn::ObjectToWorld
        | BuiltIn::WorldToObject
        | BuiltIn::VertexCount
        | BuiltIn::PrimitiveCount
        | BuiltIn::Vertices
        | BuiltIn::Primitives => built_in,
    }
}

/// Puts a key into a set. A refused call leaves the set as it was.
fn insert<K: Ord + Drop>(set: &mut BTreeSet<K>, key: K) -> Result<(), AllocError>
    ensures put { OnOk result ((q : K) → set_contains K.cmp set.new q ≡ (set_contains K.cmp set.old q || K.eq q key)) }
    ensures err { OnErr result ((q : K) → set_contains K.cmp set.new q ≡ set_contains K.cmp set.old q) }
{
    set.insert(key)?;
    Ok(())
}

/// Takes a key out of a set.
fn remove<K: Ord + Drop>(set: &mut BTreeSet<K>, key: K)
    ensures { (q : K) → set_contains K.cmp set.new q ≡ (set_contains K.cmp set.old q && not (K.eq q key)) }
{
    set.remove(&key);
}
