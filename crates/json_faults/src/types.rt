//! Types, and what they are made from.

ghost use Rattle.std.specs.Prelude.{◌≡◌};
ghost use Rattle.json_faults.specs.TypeJson.{scalar_form, member_form, space_name, space_form, image_class_name, image_class_form, array_size_form, atomic_function_name, atomic_function_form, switch_value_form, binding_form, inner_name, type_form};

use crate::parts::{
    four_fields, holding, holding_field, holding_five, holding_three, holding_two, two_fields,
};
use crate::to_json::ToJson;
use crate::writer::JsonWriter;
use ir_leaves::{Binding, Scalar};
use ir_statements::{AtomicFunction, SwitchValue};
use ir_types::{AddressSpace, ArraySize, ImageClass, StructMember, TypeInner};
use std::alloc::AllocError;

impl ToJson for Scalar {
    ghost form = { scalar_form };

    #[tactic(auto, unfolding(crate::specs::TypeJson::scalar_form))]
    fn write_json(&self, out: &mut JsonWriter) -> Result<(), AllocError> {
        two_fields(out, &("kind", "width"), &self.kind, &self.width)
    }
}

/// The name of an address space.
#[tactic(auto, unfolding(crate::specs::TypeJson::space_name))]
fn space_name(space: &AddressSpace) -> &'static str
    ensures { result.now ≡ space_name space.now }
{
    match space {
        AddressSpace::Function => "Function",
        AddressSpace::Private => "Private",
        AddressSpace::WorkGroup => "WorkGroup",
        AddressSpace::Uniform => "Uniform",
        AddressSpace::Storage { .. } => "Storage",
        AddressSpace::Handle => "Handle",
        AddressSpace::Immediate => "Immediate",
        AddressSpace::TaskPayload => "TaskPayload",
        AddressSpace::RayPayload => "RayPayload",
        AddressSpace::IncomingRayPayload => "IncomingRayPayload",
    }
}

impl ToJson for AddressSpace {
    ghost form = { space_form };

    #[tactic(auto, unfolding(crate::specs::TypeJson::space_form))]
    fn write_json(&self, out: &mut JsonWriter) -> Result<(), AllocError> {
        match self {
            AddressSpace::Storage { access } => holding_field(out, &("Storage", "access"), access),
            AddressSpace::Function
            | AddressSpace::Private
            | AddressSpace::WorkGroup
            | AddressSpace::Uniform
            | AddressSpace::Handle
            | AddressSpace::Immediate
            | AddressSpace::TaskPayload
            | AddressSpace::RayPayload
            | AddressSpace::IncomingRayPayload => out.string(space_name(self)),
        }
    }
}

/// The name of a class of images.
#[tactic(auto, unfolding(crate::specs::TypeJson::image_class_name))]
fn image_class_name(class: &ImageClass) -> &'static str
    ensures { result.now ≡ image_class_name class.now }
{
    match class {
        ImageClass::Sampled { .. } => "Sampled",
        ImageClass::Depth { .. } => "Depth",
        ImageClass::External => "External",
        ImageClass::Storage { .. } => "Storage",
    }
}

impl ToJson for ImageClass {
    ghost form = { image_class_form };

    #[tactic(auto, unfolding(crate::specs::TypeJson::image_class_form, crate::specs::TypeJson::image_class_held, crate::specs::JsonForm::variant))]
    fn write_json(&self, out: &mut JsonWriter) -> Result<(), AllocError> {
        let variant = image_class_name(self);
        match self {
            ImageClass::Sampled { kind, multi } => holding_two(
                out,
                &(variant, "kind", "multi"),
                kind,
                multi,
            ),
            ImageClass::Depth { multi } => holding_field(out, &(variant, "multi"), multi),
            ImageClass::External => out.string(variant),
            ImageClass::Storage { format, access } => holding_two(
                out,
                &(variant, "format", "access"),
                format,
                access,
            ),
        }
    }
}

impl ToJson for ArraySize {
    ghost form = { array_size_form };

    #[tactic(auto, unfolding(crate::specs::TypeJson::array_size_form))]
    fn write_json(&self, out: &mut JsonWriter) -> Result<(), AllocError> {
        match self {
            ArraySize::Constant(count) => holding(out, "Constant", &count.get()),
            ArraySize::Pending(size) => holding(out, "Pending", size),
            ArraySize::Dynamic => out.string("Dynamic"),
        }
    }
}

/// The name of an atomic function.
#[tactic(auto, unfolding(crate::specs::TypeJson::atomic_function_name))]
fn atomic_function_name(function: &AtomicFunction) -> &'static str
    ensures { result.now ≡ atomic_function_name function.now }
{
    match function {
        AtomicFunction::Add => "Add",
        AtomicFunction::Subtract => "Subtract",
        AtomicFunction::And => "And",
        AtomicFunction::ExclusiveOr => "ExclusiveOr",
        AtomicFunction::InclusiveOr => "InclusiveOr",
        AtomicFunction::Min => "Min",
        AtomicFunction::Max => "Max",
        AtomicFunction::Exchange { .. } => "Exchange",
    }
}

impl ToJson for AtomicFunction {
    ghost form = { atomic_function_form };

    #[tactic(auto, unfolding(crate::specs::TypeJson::atomic_function_form))]
    fn write_json(&self, out: &mut JsonWriter) -> Result<(), AllocError> {
        match self {
            AtomicFunction::Exchange { compare } => holding_field(
                out,
                &("Exchange", "compare"),
                compare,
            ),
            AtomicFunction::Add
            | AtomicFunction::Subtract
            | AtomicFunction::And
            | AtomicFunction::ExclusiveOr
            | AtomicFunction::InclusiveOr
            | AtomicFunction::Min
            | AtomicFunction::Max => out.string(atomic_function_name(self)),
        }
    }
}

impl ToJson for SwitchValue {
    ghost form = { switch_value_form };

    #[tactic(auto, unfolding(crate::specs::TypeJson::switch_value_form))]
    fn write_json(&self, out: &mut JsonWriter) -> Result<(), AllocError> {
        match self {
            SwitchValue::I32(value) => holding(out, "I32", value),
            SwitchValue::U32(value) => holding(out, "U32", value),
            SwitchValue::Default => out.string("Default"),
        }
    }
}

impl ToJson for Binding {
    ghost form = { binding_form };

    #[tactic(auto, unfolding(crate::specs::TypeJson::binding_form))]
    fn write_json(&self, out: &mut JsonWriter) -> Result<(), AllocError> {
        match self {
            Binding::BuiltIn(built_in) => holding(out, "BuiltIn", built_in),
            Binding::Location {
                location,
                interpolation,
                sampling,
                blend_src,
                per_primitive,
            } => holding_five(
                out,
                &(
                    "Location",
                    "location",
                    "interpolation",
                    "sampling",
                    "blend_src",
                    "per_primitive",
                ),
                location,
                interpolation,
                sampling,
                blend_src,
                per_primitive,
            ),
        }
    }
}

impl ToJson for StructMember {
    ghost form = { member_form };

    #[tactic(auto, unfolding(crate::specs::TypeJson::member_form))]
    fn write_json(&self, out: &mut JsonWriter) -> Result<(), AllocError> {
        four_fields(
            out,
            &("name", "ty", "binding", "offset"),
            &self.name,
            &self.ty,
            &self.binding,
            &self.offset,
        )
    }
}

/// The name of a kind of type.
#[tactic(auto, unfolding(crate::specs::TypeJson::inner_name))]
fn inner_name(inner: &TypeInner) -> &'static str
    ensures { result.now ≡ inner_name inner.now }
{
    match inner {
        TypeInner::Scalar(..) => "Scalar",
        TypeInner::Vector { .. } => "Vector",
        TypeInner::Matrix { .. } => "Matrix",
        TypeInner::CooperativeMatrix { .. } => "CooperativeMatrix",
        TypeInner::Atomic(..) => "Atomic",
        TypeInner::Pointer { .. } => "Pointer",
        TypeInner::ValuePointer { .. } => "ValuePointer",
        TypeInner::Array { .. } => "Array",
        TypeInner::Struct { .. } => "Struct",
        TypeInner::Image { .. } => "Image",
        TypeInner::Sampler { .. } => "Sampler",
        TypeInner::AccelerationStructure { .. } => "AccelerationStructure",
        TypeInner::RayQuery { .. } => "RayQuery",
        TypeInner::BindingArray { .. } => "BindingArray",
    }
}

impl ToJson for TypeInner {
    ghost form = { type_form };

    #[tactic(auto, unfolding(crate::specs::TypeJson::type_form, crate::specs::TypeJson::inner_held))]
    fn write_json(&self, out: &mut JsonWriter) -> Result<(), AllocError> {
        let variant = inner_name(self);
        match self {
            TypeInner::Scalar(scalar) | TypeInner::Atomic(scalar) => holding(out, variant, scalar),
            TypeInner::Vector { size, scalar } => holding_two(
                out,
                &(variant, "size", "scalar"),
                size,
                scalar,
            ),
            TypeInner::Matrix {
                columns,
                rows,
                scalar,
            } => holding_three(
                out,
                &(variant, "columns", "rows", "scalar"),
                columns,
                rows,
                scalar,
            ),
            TypeInner::CooperativeMatrix { scalar, detail } => holding_two(
                out,
                &(variant, "scalar", "detail"),
                scalar,
                detail,
            ),
            TypeInner::Pointer { base, space } => holding_two(
                out,
                &(variant, "base", "space"),
                base,
                space,
            ),
            TypeInner::ValuePointer {
                size,
                scalar,
                space,
            } => holding_three(
                out,
                &(variant, "size", "scalar", "space"),
                size,
                scalar,
                space,
            ),
            TypeInner::Array { base, size, stride } => holding_three(
                out,
                &(variant, "base", "size", "stride"),
                base,
                size,
                stride,
            ),
            TypeInner::Struct { members, span } => holding_two(
                out,
                &(variant, "members", "span"),
                members,
                span,
            ),
            TypeInner::Image {
                dim,
                arrayed,
                class,
            } => holding_three(
                out,
                &(variant, "dim", "arrayed", "class"),
                dim,
                arrayed,
                class,
            ),
            TypeInner::Sampler { comparison } => holding_field(
                out,
                &(variant, "comparison"),
                comparison,
            ),
            TypeInner::AccelerationStructure { vertex_return }
            | TypeInner::RayQuery { vertex_return } => holding_field(
                out,
                &(variant, "vertex_return"),
                vertex_return,
            ),
            TypeInner::BindingArray { base, size } => holding_two(
                out,
                &(variant, "base", "size"),
                base,
                size,
            ),
        }
    }
}
