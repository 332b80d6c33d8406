//! Capabilities of a target.

ghost use Rattle.std.specs.Prelude.{◌≡◌, ⊤, [], ◌∷◌, codes};

use crate::set_text::write_set;
use bitflags::{Flag, Flags};
use std::fmt;

/// What the target can do beyond what all targets can. Bit k is the k-th name in alphabetical order, counted from 0.
#[derive(Clone, Copy, PartialEq, Eq, Hash)]
pub struct Capabilities(pub u32);

impl Capabilities {
    pub const ACCELERATION_STRUCTURE_BINDING_ARRAY: Capabilities = Capabilities(0x1);

    pub const BUFFER_BINDING_ARRAY: Capabilities = Capabilities(0x2);

    pub const CLIP_DISTANCES: Capabilities = Capabilities(0x4);

    pub const CULL_DISTANCE: Capabilities = Capabilities(0x8);

    pub const DRAW_INDEX: Capabilities = Capabilities(0x10);

    pub const EARLY_DEPTH_TEST: Capabilities = Capabilities(0x20);

    pub const IMMEDIATES: Capabilities = Capabilities(0x40);

    pub const MEMORY_DECORATION_COHERENT: Capabilities = Capabilities(0x80);

    pub const MEMORY_DECORATION_VOLATILE: Capabilities = Capabilities(0x100);

    pub const MESH_SHADER: Capabilities = Capabilities(0x200);

    pub const MESH_SHADER_POINT_TOPOLOGY: Capabilities = Capabilities(0x400);

    pub const MULTISAMPLED_SHADING: Capabilities = Capabilities(0x800);

    pub const MULTIVIEW: Capabilities = Capabilities(0x1000);

    pub const PER_VERTEX: Capabilities = Capabilities(0x2000);

    pub const PRIMITIVE_INDEX: Capabilities = Capabilities(0x4000);

    pub const RAY_TRACING_PIPELINE: Capabilities = Capabilities(0x8000);

    pub const SHADER_BARYCENTRICS: Capabilities = Capabilities(0x10000);

    pub const SHADER_FLOAT32_ATOMIC: Capabilities = Capabilities(0x20000);

    pub const SHADER_INT64_ATOMIC_ALL_OPS: Capabilities = Capabilities(0x40000);

    pub const SHADER_INT64_ATOMIC_MIN_MAX: Capabilities = Capabilities(0x80000);

    pub const STORAGE_BUFFER_BINDING_ARRAY: Capabilities = Capabilities(0x100000);

    pub const STORAGE_TEXTURE_16BIT_NORM_FORMATS: Capabilities = Capabilities(0x200000);

    pub const STORAGE_TEXTURE_BINDING_ARRAY: Capabilities = Capabilities(0x400000);

    pub const SUBGROUP: Capabilities = Capabilities(0x800000);

    pub const SUBGROUP_BARRIER: Capabilities = Capabilities(0x1000000);

    pub const TEXTURE_AND_SAMPLER_BINDING_ARRAY: Capabilities = Capabilities(0x2000000);

    pub const TEXTURE_ATOMIC: Capabilities = Capabilities(0x4000000);

    pub const TEXTURE_INT64_ATOMIC: Capabilities = Capabilities(0x8000000);

    /// The bits with their names.
    pub const FLAGS: &'static [Flag<Capabilities>] = named_bits!(Capabilities:
        ACCELERATION_STRUCTURE_BINDING_ARRAY, BUFFER_BINDING_ARRAY, CLIP_DISTANCES, CULL_DISTANCE,
        DRAW_INDEX, EARLY_DEPTH_TEST, IMMEDIATES, MEMORY_DECORATION_COHERENT,
        MEMORY_DECORATION_VOLATILE, MESH_SHADER, MESH_SHADER_POINT_TOPOLOGY, MULTISAMPLED_SHADING,
        MULTIVIEW, PER_VERTEX, PRIMITIVE_INDEX, RAY_TRACING_PIPELINE, SHADER_BARYCENTRICS,
        SHADER_FLOAT32_ATOMIC, SHADER_INT64_ATOMIC_ALL_OPS, SHADER_INT64_ATOMIC_MIN_MAX,
        STORAGE_BUFFER_BINDING_ARRAY, STORAGE_TEXTURE_16BIT_NORM_FORMATS,
        STORAGE_TEXTURE_BINDING_ARRAY, SUBGROUP, SUBGROUP_BARRIER,
        TEXTURE_AND_SAMPLER_BINDING_ARRAY, TEXTURE_ATOMIC, TEXTURE_INT64_ATOMIC
    );
}

impl fmt::Debug for Capabilities {
    fn fmt<W: fmt::Write>(&self, f: &mut fmt::Formatter<W>) -> fmt::Result {
        write_set("Capabilities", self, f)
    }
}

impl Flags for Capabilities {
    ghost use Rattle.ir_flags.specs.Capabilities as capability;

    type Bits = u32;

    ghost exact = { ⊤ };

    ghost table = { (codes "ACCELERATION_STRUCTURE_BINDING_ARRAY", capability.ACCELERATION_STRUCTURE_BINDING_ARRAY.0) ∷
        (codes "BUFFER_BINDING_ARRAY", capability.BUFFER_BINDING_ARRAY.0) ∷
        (codes "CLIP_DISTANCES", capability.CLIP_DISTANCES.0) ∷
        (codes "CULL_DISTANCE", capability.CULL_DISTANCE.0) ∷
        (codes "DRAW_INDEX", capability.DRAW_INDEX.0) ∷
        (codes "EARLY_DEPTH_TEST", capability.EARLY_DEPTH_TEST.0) ∷
        (codes "IMMEDIATES", capability.IMMEDIATES.0) ∷
        (codes "MEMORY_DECORATION_COHERENT", capability.MEMORY_DECORATION_COHERENT.0) ∷
        (codes "MEMORY_DECORATION_VOLATILE", capability.MEMORY_DECORATION_VOLATILE.0) ∷
        (codes "MESH_SHADER", capability.MESH_SHADER.0) ∷
        (codes "MESH_SHADER_POINT_TOPOLOGY", capability.MESH_SHADER_POINT_TOPOLOGY.0) ∷
        (codes "MULTISAMPLED_SHADING", capability.MULTISAMPLED_SHADING.0) ∷
        (codes "MULTIVIEW", capability.MULTIVIEW.0) ∷
        (codes "PER_VERTEX", capability.PER_VERTEX.0) ∷
        (codes "PRIMITIVE_INDEX", capability.PRIMITIVE_INDEX.0) ∷
        (codes "RAY_TRACING_PIPELINE", capability.RAY_TRACING_PIPELINE.0) ∷
        (codes "SHADER_BARYCENTRICS", capability.SHADER_BARYCENTRICS.0) ∷
        (codes "SHADER_FLOAT32_ATOMIC", capability.SHADER_FLOAT32_ATOMIC.0) ∷
        (codes "SHADER_INT64_ATOMIC_ALL_OPS", capability.SHADER_INT64_ATOMIC_ALL_OPS.0) ∷
        (codes "SHADER_INT64_ATOMIC_MIN_MAX", capability.SHADER_INT64_ATOMIC_MIN_MAX.0) ∷
        (codes "STORAGE_BUFFER_BINDING_ARRAY", capability.STORAGE_BUFFER_BINDING_ARRAY.0) ∷
        (codes "STORAGE_TEXTURE_16BIT_NORM_FORMATS", capability.STORAGE_TEXTURE_16BIT_NORM_FORMATS.0) ∷
        (codes "STORAGE_TEXTURE_BINDING_ARRAY", capability.STORAGE_TEXTURE_BINDING_ARRAY.0) ∷
        (codes "SUBGROUP", capability.SUBGROUP.0) ∷
        (codes "SUBGROUP_BARRIER", capability.SUBGROUP_BARRIER.0) ∷
        (codes "TEXTURE_AND_SAMPLER_BINDING_ARRAY", capability.TEXTURE_AND_SAMPLER_BINDING_ARRAY.0) ∷
        (codes "TEXTURE_ATOMIC", capability.TEXTURE_ATOMIC.0) ∷
        (codes "TEXTURE_INT64_ATOMIC", capability.TEXTURE_INT64_ATOMIC.0) ∷ [] };

    ghost set_of = { λ p. p.0 };

    fn flags<'a>() -> &'a [Flag<Capabilities>] {
        Capabilities::FLAGS
    }

    fn bits(&self) -> u32 {
        self.0
    }

    fn from_bits_retain(bits: u32) -> Capabilities {
        Capabilities(bits)
    }
}

impl Capabilities {
    /// Every capability.
    pub const ALL: Capabilities = Capabilities(0xfffffff);

    ghost use Rattle.ir_flags.specs.Bits.{contains};

    /// Whether the set has all of `some`.
    pub fn contains(self, some: Capabilities) -> bool
        ensures { result ≡ contains self.0 some.0 }
    {
        Flags::contains(&self, some)
    }
}
