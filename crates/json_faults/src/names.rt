//! Values that are their names.

ghost use Rattle.std.specs.Prelude.{◌≡◌};
ghost use Rattle.json_faults.specs.NameJson.{scalar_kind_name, scalar_kind_form, vector_size_form, image_dimension_form, storage_format_name, storage_format_form, interpolation_form, sampling_name, sampling_form, shader_stage_name, shader_stage_form};

use crate::to_json::ToJson;
use crate::writer::JsonWriter;
use ir_leaves::{
    ImageDimension, Interpolation, Sampling, ScalarKind, ShaderStage, StorageFormat, VectorSize,
};
use std::alloc::AllocError;

/// The name of a kind of scalars.
#[tactic(auto, unfolding(crate::specs::NameJson::scalar_kind_name))]
fn scalar_kind_name(kind: ScalarKind) -> &'static str
    ensures { result.now ≡ scalar_kind_name kind }
{
    match kind {
        ScalarKind::Sint => "Sint",
        ScalarKind::Uint => "Uint",
        ScalarKind::Float => "Float",
        ScalarKind::Bool => "Bool",
        ScalarKind::AbstractInt => "AbstractInt",
        ScalarKind::AbstractFloat => "AbstractFloat",
    }
}

impl ToJson for ScalarKind {
    ghost form = { scalar_kind_form };

    #[tactic(auto, unfolding(crate::specs::NameJson::scalar_kind_form))]
    fn write_json(&self, out: &mut JsonWriter) -> Result<(), AllocError> {
        out.string(scalar_kind_name(*self))
    }
}

impl ToJson for VectorSize {
    ghost form = { vector_size_form };

    #[tactic(auto, unfolding(crate::specs::NameJson::vector_size_form))]
    fn write_json(&self, out: &mut JsonWriter) -> Result<(), AllocError> {
        match self {
            VectorSize::Bi => out.string("Bi"),
            VectorSize::Tri => out.string("Tri"),
            VectorSize::Quad => out.string("Quad"),
        }
    }
}

impl ToJson for ImageDimension {
    ghost form = { image_dimension_form };

    #[tactic(auto, unfolding(crate::specs::NameJson::image_dimension_form))]
    fn write_json(&self, out: &mut JsonWriter) -> Result<(), AllocError> {
        match self {
            ImageDimension::D1 => out.string("D1"),
            ImageDimension::D2 => out.string("D2"),
            ImageDimension::D3 => out.string("D3"),
            ImageDimension::Cube => out.string("Cube"),
        }
    }
}

/// The name of a format of storage images.
#[tactic(auto, unfolding(crate::specs::NameJson::storage_format_name))]
fn storage_format_name(format: StorageFormat) -> &'static str
    ensures { result.now ≡ storage_format_name format }
{
    match format {
        StorageFormat::R8Unorm => "R8Unorm",
        StorageFormat::R8Snorm => "R8Snorm",
        StorageFormat::R8Uint => "R8Uint",
        StorageFormat::R8Sint => "R8Sint",
        StorageFormat::R16Uint => "R16Uint",
        StorageFormat::R16Sint => "R16Sint",
        StorageFormat::R16Unorm => "R16Unorm",
        StorageFormat::R16Snorm => "R16Snorm",
        StorageFormat::R16Float => "R16Float",
        StorageFormat::Rg8Unorm => "Rg8Unorm",
        StorageFormat::Rg8Snorm => "Rg8Snorm",
        StorageFormat::Rg8Uint => "Rg8Uint",
        StorageFormat::Rg8Sint => "Rg8Sint",
        StorageFormat::R32Uint => "R32Uint",
        StorageFormat::R32Sint => "R32Sint",
        StorageFormat::R32Float => "R32Float",
        StorageFormat::Rg16Uint => "Rg16Uint",
        StorageFormat::Rg16Sint => "Rg16Sint",
        StorageFormat::Rg16Unorm => "Rg16Unorm",
        StorageFormat::Rg16Snorm => "Rg16Snorm",
        StorageFormat::Rg16Float => "Rg16Float",
        StorageFormat::Rgba8Unorm => "Rgba8Unorm",
        StorageFormat::Rgba8Snorm => "Rgba8Snorm",
        StorageFormat::Rgba8Uint => "Rgba8Uint",
        StorageFormat::Rgba8Sint => "Rgba8Sint",
        StorageFormat::Bgra8Unorm => "Bgra8Unorm",
        StorageFormat::Rgb10a2Uint => "Rgb10a2Uint",
        StorageFormat::Rgb10a2Unorm => "Rgb10a2Unorm",
        StorageFormat::Rg11b10Ufloat => "Rg11b10Ufloat",
        StorageFormat::R64Uint => "R64Uint",
        StorageFormat::Rg32Uint => "Rg32Uint",
        StorageFormat::Rg32Sint => "Rg32Sint",
        StorageFormat::Rg32Float => "Rg32Float",
        StorageFormat::Rgba16Uint => "Rgba16Uint",
        StorageFormat::Rgba16Sint => "Rgba16Sint",
        StorageFormat::Rgba16Unorm => "Rgba16Unorm",
        StorageFormat::Rgba16Snorm => "Rgba16Snorm",
        StorageFormat::Rgba16Float => "Rgba16Float",
        StorageFormat::Rgba32Uint => "Rgba32Uint",
        StorageFormat::Rgba32Sint => "Rgba32Sint",
        StorageFormat::Rgba32Float => "Rgba32Float",
    }
}

impl ToJson for StorageFormat {
    ghost form = { storage_format_form };

    #[tactic(auto, unfolding(crate::specs::NameJson::storage_format_form))]
    fn write_json(&self, out: &mut JsonWriter) -> Result<(), AllocError> {
        out.string(storage_format_name(*self))
    }
}

impl ToJson for Interpolation {
    ghost form = { interpolation_form };

    #[tactic(auto, unfolding(crate::specs::NameJson::interpolation_form))]
    fn write_json(&self, out: &mut JsonWriter) -> Result<(), AllocError> {
        match self {
            Interpolation::Perspective => out.string("Perspective"),
            Interpolation::Linear => out.string("Linear"),
            Interpolation::Flat => out.string("Flat"),
            Interpolation::PerVertex => out.string("PerVertex"),
        }
    }
}

/// The name of a sampling.
#[tactic(auto, unfolding(crate::specs::NameJson::sampling_name))]
fn sampling_name(sampling: Sampling) -> &'static str
    ensures { result.now ≡ sampling_name sampling }
{
    match sampling {
        Sampling::Center => "Center",
        Sampling::Centroid => "Centroid",
        Sampling::Sample => "Sample",
        Sampling::First => "First",
        Sampling::Either => "Either",
    }
}

impl ToJson for Sampling {
    ghost form = { sampling_form };

    #[tactic(auto, unfolding(crate::specs::NameJson::sampling_form))]
    fn write_json(&self, out: &mut JsonWriter) -> Result<(), AllocError> {
        out.string(sampling_name(*self))
    }
}

/// The name of a stage.
#[tactic(auto, unfolding(crate::specs::NameJson::shader_stage_name))]
fn shader_stage_name(stage: ShaderStage) -> &'static str
    ensures { result.now ≡ shader_stage_name stage }
{
    match stage {
        ShaderStage::Vertex => "Vertex",
        ShaderStage::Fragment => "Fragment",
        ShaderStage::Compute => "Compute",
        ShaderStage::Mesh => "Mesh",
        ShaderStage::Task => "Task",
        ShaderStage::RayGeneration => "RayGeneration",
        ShaderStage::AnyHit => "AnyHit",
        ShaderStage::ClosestHit => "ClosestHit",
        ShaderStage::Miss => "Miss",
    }
}

impl ToJson for ShaderStage {
    ghost form = { shader_stage_form };

    #[tactic(auto, unfolding(crate::specs::NameJson::shader_stage_form))]
    fn write_json(&self, out: &mut JsonWriter) -> Result<(), AllocError> {
        out.string(shader_stage_name(*self))
    }
}
