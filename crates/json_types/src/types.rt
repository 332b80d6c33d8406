//! Types.

ghost use Rattle.json_nodes.specs.Nodes.{data_of};
ghost use Rattle.json_values.specs.Reads.{ReadsMeaning};
ghost use Rattle.json_types.specs.ReadTypes.{acceleration_structure_of, array_of, array_size_from, array_size_of, binding_array_of, cooperative_matrix_of, image_of, matrix_of, pointer_of, ray_query_of, sampler_of, struct_member_of, struct_of, type_inner_from, type_inner_of, type_of, type_resolution_from, type_resolution_of, value_pointer_of, vector_of};

use ir_types::{ArraySize, StructMember, Type, TypeInner, TypeResolution};
use json_values::{FromJson, Held, Holding, ReadError, read_either, read_holding};

/// Who reads types, and what they hold.
#[derive(Clone, Copy)]
pub struct Types;

/// The size that holds nothing.
const ARRAY_SIZES: [(&str, ArraySize); 1] = [("Dynamic", ArraySize::Dynamic)];

/// The sizes that hold a number or an override.
#[derive(Clone, Copy)]
enum SizeName {
    Constant,
    Pending,
}

/// Their names.
const HOLDING_SIZES: [(&str, SizeName); 2] = [
    ("Constant", SizeName::Constant),
    ("Pending", SizeName::Pending),
];

impl FromJson<Types> for ArraySize {
    ghost stands_for = { array_size_of };

    fn from_json(_: Types, held: Held) -> Result<Self, ReadError> {
        read_either(Types, held, &ARRAY_SIZES, &HOLDING_SIZES)
    }
}

impl Holding<SizeName, Types> for ArraySize {
    ghost held_of = { array_size_from };

    fn read_held(name: SizeName, _: Types, held: Held) -> Result<Self, ReadError> {
        match name {
            SizeName::Constant => match held.read(Types) {
                Ok(count) => Ok(ArraySize::Constant(count)),
                Err(error) => Err(error),
            },
            SizeName::Pending => match held.read(Types) {
                Ok(pending) => Ok(ArraySize::Pending(pending)),
                Err(error) => Err(error),
            },
        }
    }
}

impl FromJson<Types> for StructMember {
    ghost stands_for = { struct_member_of };

    fn from_json(_: Types, held: Held) -> Result<Self, ReadError> {
        match held.four(Types, &("name", "ty", "binding", "offset")) {
            Ok((name, ty, binding, offset)) => Ok(StructMember {
                name,
                ty,
                binding,
                offset,
            }),
            Err(error) => Err(error),
        }
    }
}

/// The kinds of types.
#[derive(Clone, Copy)]
enum TypeName {
    Scalar,
    Vector,
    Matrix,
    CooperativeMatrix,
    Atomic,
    Pointer,
    ValuePointer,
    Array,
    Struct,
    Image,
    Sampler,
    AccelerationStructure,
    RayQuery,
    BindingArray,
}

/// Their names.
const TYPE_NAMES: [(&str, TypeName); 14] = [
    ("Scalar", TypeName::Scalar),
    ("Vector", TypeName::Vector),
    ("Matrix", TypeName::Matrix),
    ("CooperativeMatrix", TypeName::CooperativeMatrix),
    ("Atomic", TypeName::Atomic),
    ("Pointer", TypeName::Pointer),
    ("ValuePointer", TypeName::ValuePointer),
    ("Array", TypeName::Array),
    ("Struct", TypeName::Struct),
    ("Image", TypeName::Image),
    ("Sampler", TypeName::Sampler),
    ("AccelerationStructure", TypeName::AccelerationStructure),
    ("RayQuery", TypeName::RayQuery),
    ("BindingArray", TypeName::BindingArray),
];

fn read_vector(held: Held) -> Result<TypeInner, ReadError>
    ensures { ReadsMeaning (vector_of (data_of held.entry.value.now)) result }
{
    match held.two(Types, &("size", "scalar")) {
        Ok((size, scalar)) => Ok(TypeInner::Vector { size, scalar }),
        Err(error) => Err(error),
    }
}

fn read_matrix(held: Held) -> Result<TypeInner, ReadError>
    ensures { ReadsMeaning (matrix_of (data_of held.entry.value.now)) result }
{
    match held.three(Types, &("columns", "rows", "scalar")) {
        Ok((columns, rows, scalar)) => Ok(TypeInner::Matrix {
            columns,
            rows,
            scalar,
        }),
        Err(error) => Err(error),
    }
}

fn read_cooperative_matrix(held: Held) -> Result<TypeInner, ReadError>
    ensures { ReadsMeaning (cooperative_matrix_of (data_of held.entry.value.now)) result }
{
    match held.two(Types, &("scalar", "detail")) {
        Ok((scalar, detail)) => Ok(TypeInner::CooperativeMatrix { scalar, detail }),
        Err(error) => Err(error),
    }
}

fn read_pointer(held: Held) -> Result<TypeInner, ReadError>
    ensures { ReadsMeaning (pointer_of (data_of held.entry.value.now)) result }
{
    match held.two(Types, &("base", "space")) {
        Ok((base, space)) => Ok(TypeInner::Pointer { base, space }),
        Err(error) => Err(error),
    }
}

fn read_value_pointer(held: Held) -> Result<TypeInner, ReadError>
    ensures { ReadsMeaning (value_pointer_of (data_of held.entry.value.now)) result }
{
    match held.three(Types, &("size", "scalar", "space")) {
        Ok((size, scalar, space)) => Ok(TypeInner::ValuePointer {
            size,
            scalar,
            space,
        }),
        Err(error) => Err(error),
    }
}

fn read_array(held: Held) -> Result<TypeInner, ReadError>
    ensures { ReadsMeaning (array_of (data_of held.entry.value.now)) result }
{
    match held.three(Types, &("base", "size", "stride")) {
        Ok((base, size, stride)) => Ok(TypeInner::Array { base, size, stride }),
        Err(error) => Err(error),
    }
}

fn read_struct(held: Held) -> Result<TypeInner, ReadError>
    ensures { ReadsMeaning (struct_of (data_of held.entry.value.now)) result }
{
    match held.two(Types, &("members", "span")) {
        Ok((members, span)) => Ok(TypeInner::Struct { members, span }),
        Err(error) => Err(error),
    }
}

fn read_image(held: Held) -> Result<TypeInner, ReadError>
    ensures { ReadsMeaning (image_of (data_of held.entry.value.now)) result }
{
    match held.three(Types, &("dim", "arrayed", "class")) {
        Ok((dim, arrayed, class)) => Ok(TypeInner::Image {
            dim,
            arrayed,
            class,
        }),
        Err(error) => Err(error),
    }
}

fn read_sampler(held: Held) -> Result<TypeInner, ReadError>
    ensures { ReadsMeaning (sampler_of (data_of held.entry.value.now)) result }
{
    match held.one(Types, "comparison") {
        Ok(comparison) => Ok(TypeInner::Sampler { comparison }),
        Err(error) => Err(error),
    }
}

fn read_acceleration_structure(held: Held) -> Result<TypeInner, ReadError>
    ensures { ReadsMeaning (acceleration_structure_of (data_of held.entry.value.now)) result }
{
    match held.one(Types, "vertex_return") {
        Ok(vertex_return) => Ok(TypeInner::AccelerationStructure { vertex_return }),
        Err(error) => Err(error),
    }
}

fn read_ray_query(held: Held) -> Result<TypeInner, ReadError>
    ensures { ReadsMeaning (ray_query_of (data_of held.entry.value.now)) result }
{
    match held.one(Types, "vertex_return") {
        Ok(vertex_return) => Ok(TypeInner::RayQuery { vertex_return }),
        Err(error) => Err(error),
    }
}

fn read_binding_array(held: Held) -> Result<TypeInner, ReadError>
    ensures { ReadsMeaning (binding_array_of (data_of held.entry.value.now)) result }
{
    match held.two(Types, &("base", "size")) {
        Ok((base, size)) => Ok(TypeInner::BindingArray { base, size }),
        Err(error) => Err(error),
    }
}

impl Holding<TypeName, Types> for TypeInner {
    ghost held_of = { type_inner_from };

    fn read_held(name: TypeName, _: Types, held: Held) -> Result<Self, ReadError> {
        match name {
            TypeName::Scalar => match held.read(Types) {
                Ok(scalar) => Ok(TypeInner::Scalar(scalar)),
                Err(error) => Err(error),
            },
            TypeName::Vector => read_vector(held),
            TypeName::Matrix => read_matrix(held),
            TypeName::CooperativeMatrix => read_cooperative_matrix(held),
            TypeName::Atomic => match held.read(Types) {
                Ok(scalar) => Ok(TypeInner::Atomic(scalar)),
                Err(error) => Err(error),
            },
            TypeName::Pointer => read_pointer(held),
            TypeName::ValuePointer => read_value_pointer(held),
            TypeName::Array => read_array(held),
            TypeName::Struct => read_struct(held),
            TypeName::Image => read_image(held),
            TypeName::Sampler => read_sampler(held),
            TypeName::AccelerationStructure => read_acceleration_structure(held),
            TypeName::RayQuery => read_ray_query(held),
            TypeName::BindingArray => read_binding_array(held),
        }
    }
}

impl FromJson<Types> for TypeInner {
    ghost stands_for = { type_inner_of };

    fn from_json(_: Types, held: Held) -> Result<Self, ReadError> {
        read_holding(Types, held, &TYPE_NAMES)
    }
}

impl FromJson<Types> for Type {
    ghost stands_for = { type_of };

    fn from_json(_: Types, held: Held) -> Result<Self, ReadError> {
        match held.two(Types, &("name", "inner")) {
            Ok((name, inner)) => Ok(Type { name, inner }),
            Err(error) => Err(error),
        }
    }
}

/// Types by handle and by value.
#[derive(Clone, Copy)]
enum ResolutionName {
    Handle,
    Value,
}

/// Their names.
const RESOLUTIONS: [(&str, ResolutionName); 2] = [
    ("Handle", ResolutionName::Handle),
    ("Value", ResolutionName::Value),
];

impl FromJson<Types> for TypeResolution {
    ghost stands_for = { type_resolution_of };

    fn from_json(_: Types, held: Held) -> Result<Self, ReadError> {
        read_holding(Types, held, &RESOLUTIONS)
    }
}

impl Holding<ResolutionName, Types> for TypeResolution {
    ghost held_of = { type_resolution_from };

    fn read_held(name: ResolutionName, _: Types, held: Held) -> Result<Self, ReadError> {
        match name {
            ResolutionName::Handle => match held.read(Types) {
                Ok(handle) => Ok(TypeResolution::Handle(handle)),
                Err(error) => Err(error),
            },
            ResolutionName::Value => match held.read(Types) {
                Ok(inner) => Ok(TypeResolution::Value(inner)),
                Err(error) => Err(error),
            },
        }
    }
}
