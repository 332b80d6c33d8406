//! What doesn't fit in a module.

ghost use Rattle.std.specs.Prelude.{◌≡◌};
ghost use Rattle.json_faults.specs.MisfitJson.{owner_form, type_owner_form, type_field_form, variable_field_form, statement_field_name, statement_field_form, entry_field_name, entry_field_form, place_name, place_form, handle_of_name, handle_of_form, problem_name, problem_form, misfit_form};

use crate::parts::{
    holding, holding_field, holding_pair, holding_three, holding_triple, holding_two, two_fields,
};
use crate::to_json::ToJson;
use crate::writer::JsonWriter;
use ir_misfits::{
    EntryField, HandleOf, Misfit, Owner, Place, Problem, StatementField, TypeField, TypeOwner,
    VariableField,
};
use std::alloc::AllocError;

impl ToJson for Owner {
    ghost form = { owner_form };

    #[tactic(auto, unfolding(crate::specs::MisfitJson::owner_form))]
    fn write_json(&self, out: &mut JsonWriter) -> Result<(), AllocError> {
        match self {
            Owner::Module => out.string("Module"),
            Owner::Function(function) => holding(out, "Function", function),
            Owner::EntryPoint(index) => holding(out, "EntryPoint", index),
        }
    }
}

impl ToJson for TypeOwner {
    ghost form = { type_owner_form };

    #[tactic(auto, unfolding(crate::specs::MisfitJson::type_owner_form))]
    fn write_json(&self, out: &mut JsonWriter) -> Result<(), AllocError> {
        match self {
            TypeOwner::OfModule(ty) => holding(out, "OfModule", ty),
            TypeOwner::OfGlobalExpression(expression) => holding(
                out,
                "OfGlobalExpression",
                expression,
            ),
        }
    }
}

impl ToJson for TypeField {
    ghost form = { type_field_form };

    #[tactic(auto, unfolding(crate::specs::MisfitJson::type_field_form))]
    fn write_json(&self, out: &mut JsonWriter) -> Result<(), AllocError> {
        match self {
            TypeField::Whole => out.string("Whole"),
            TypeField::Base => out.string("Base"),
            TypeField::Member(index) => holding(out, "Member", index),
            TypeField::Members => out.string("Members"),
        }
    }
}

impl ToJson for VariableField {
    ghost form = { variable_field_form };

    #[tactic(auto, unfolding(crate::specs::MisfitJson::variable_field_form))]
    fn write_json(&self, out: &mut JsonWriter) -> Result<(), AllocError> {
        match self {
            VariableField::Ty => out.string("Ty"),
            VariableField::Init => out.string("Init"),
            VariableField::Space => out.string("Space"),
        }
    }
}

/// The name of a field of a statement.
#[tactic(auto, unfolding(crate::specs::MisfitJson::statement_field_name))]
fn statement_field_name(field: &StatementField) -> &'static str
    ensures { result.now ≡ statement_field_name field.now }
{
    match field {
        StatementField::Range => "Range",
        StatementField::Condition => "Condition",
        StatementField::Selector => "Selector",
        StatementField::BreakIf => "BreakIf",
        StatementField::Value => "Value",
        StatementField::Pointer => "Pointer",
        StatementField::Image => "Image",
        StatementField::Coordinate => "Coordinate",
        StatementField::ArrayIndex => "ArrayIndex",
        StatementField::Compare => "Compare",
        StatementField::Result => "Result",
        StatementField::Function => "Function",
        StatementField::CallArgument(..) => "CallArgument",
        StatementField::Argument => "Argument",
        StatementField::Predicate => "Predicate",
        StatementField::Mode => "Mode",
        StatementField::Query => "Query",
        StatementField::AccelerationStructure => "AccelerationStructure",
        StatementField::Descriptor => "Descriptor",
        StatementField::HitT => "HitT",
        StatementField::Payload => "Payload",
        StatementField::Target => "Target",
        StatementField::Source => "Source",
    }
}

impl ToJson for StatementField {
    ghost form = { statement_field_form };

    #[tactic(auto, unfolding(crate::specs::MisfitJson::statement_field_form))]
    fn write_json(&self, out: &mut JsonWriter) -> Result<(), AllocError> {
        match self {
            StatementField::CallArgument(index) => holding(out, "CallArgument", index),
            StatementField::Range
            | StatementField::Condition
            | StatementField::Selector
            | StatementField::BreakIf
            | StatementField::Value
            | StatementField::Pointer
            | StatementField::Image
            | StatementField::Coordinate
            | StatementField::ArrayIndex
            | StatementField::Compare
            | StatementField::Result
            | StatementField::Function
            | StatementField::Argument
            | StatementField::Predicate
            | StatementField::Mode
            | StatementField::Query
            | StatementField::AccelerationStructure
            | StatementField::Descriptor
            | StatementField::HitT
            | StatementField::Payload
            | StatementField::Target
            | StatementField::Source => out.string(statement_field_name(self)),
        }
    }
}

/// The name of a field of an entry point.
#[tactic(auto, unfolding(crate::specs::MisfitJson::entry_field_name))]
fn entry_field_name(field: &EntryField) -> &'static str
    ensures { result.now ≡ entry_field_name field.now }
{
    match field {
        EntryField::TaskPayload => "TaskPayload",
        EntryField::MaxVerticesOverride => "MaxVerticesOverride",
        EntryField::MaxPrimitivesOverride => "MaxPrimitivesOverride",
        EntryField::VertexOutputType => "VertexOutputType",
        EntryField::PrimitiveOutputType => "PrimitiveOutputType",
        EntryField::OutputVariable => "OutputVariable",
    }
}

impl ToJson for EntryField {
    ghost form = { entry_field_form };

    #[tactic(auto, unfolding(crate::specs::MisfitJson::entry_field_form))]
    fn write_json(&self, out: &mut JsonWriter) -> Result<(), AllocError> {
        out.string(entry_field_name(self))
    }
}

/// The name of a place.
#[tactic(auto, unfolding(crate::specs::MisfitJson::place_name))]
fn place_name(place: &Place) -> &'static str
    ensures { result.now ≡ place_name place.now }
{
    match place {
        Place::TypeInfos => "TypeInfos",
        Place::StorageLayout(..) => "StorageLayout",
        Place::UniformLayout(..) => "UniformLayout",
        Place::InType(..) => "InType",
        Place::RayDesc => "RayDesc",
        Place::ConstantType(..) => "ConstantType",
        Place::OverrideType(..) => "OverrideType",
        Place::InGlobal(..) => "InGlobal",
        Place::GlobalTypes => "GlobalTypes",
        Place::Arguments(..) => "Arguments",
        Place::ArgumentType(..) => "ArgumentType",
        Place::ResultType(..) => "ResultType",
        Place::InLocal(..) => "InLocal",
        Place::Operand(..) => "Operand",
        Place::Reference(..) => "Reference",
        Place::InStatement(..) => "InStatement",
        Place::InEntryPoint(..) => "InEntryPoint",
    }
}

impl ToJson for Place {
    ghost form = { place_form };

    #[tactic(auto, unfolding(crate::specs::MisfitJson::place_form, crate::specs::MisfitJson::place_held, crate::specs::JsonForm::variant))]
    fn write_json(&self, out: &mut JsonWriter) -> Result<(), AllocError> {
        let variant = place_name(self);
        match self {
            Place::TypeInfos | Place::RayDesc | Place::GlobalTypes => out.string(variant),
            Place::StorageLayout(index)
            | Place::UniformLayout(index)
            | Place::ConstantType(index)
            | Place::OverrideType(index) => holding(out, variant, index),
            Place::InType(owner, field) => holding_pair(out, variant, owner, field),
            Place::InGlobal(global, field) => holding_pair(out, variant, global, field),
            Place::Arguments(owner) | Place::ResultType(owner) => holding(out, variant, owner),
            Place::ArgumentType(owner, index) | Place::Reference(owner, index) => holding_pair(
                out, variant, owner, index,
            ),
            Place::InLocal(owner, local, field) => holding_triple(
                out, variant, owner, local, field,
            ),
            Place::Operand(owner, expression, index) => holding_triple(
                out, variant, owner, expression, index,
            ),
            Place::InStatement(owner, statement, field) => holding_triple(
                out, variant, owner, statement, field,
            ),
            Place::InEntryPoint(index, field) => holding_pair(out, variant, index, field),
        }
    }
}

/// The name of what a handle is of.
#[tactic(auto, unfolding(crate::specs::MisfitJson::handle_of_name))]
fn handle_of_name(of: &HandleOf) -> &'static str
    ensures { result.now ≡ handle_of_name of.now }
{
    match of {
        HandleOf::Types => "Types",
        HandleOf::Constants => "Constants",
        HandleOf::Overrides => "Overrides",
        HandleOf::GlobalVariables => "GlobalVariables",
        HandleOf::GlobalExpressions => "GlobalExpressions",
        HandleOf::Functions => "Functions",
        HandleOf::LocalVariables => "LocalVariables",
        HandleOf::Expressions => "Expressions",
    }
}

impl ToJson for HandleOf {
    ghost form = { handle_of_form };

    #[tactic(auto, unfolding(crate::specs::MisfitJson::handle_of_form))]
    fn write_json(&self, out: &mut JsonWriter) -> Result<(), AllocError> {
        out.string(handle_of_name(self))
    }
}

/// The name of a problem.
#[tactic(auto, unfolding(crate::specs::MisfitJson::problem_name))]
fn problem_name(problem: &Problem) -> &'static str
    ensures { result.now ≡ problem_name problem.now }
{
    match problem {
        Problem::Handle { .. } => "Handle",
        Problem::Length { .. } => "Length",
        Problem::TooMany { .. } => "TooMany",
        Problem::Backwards { .. } => "Backwards",
        Problem::PastEnd { .. } => "PastEnd",
        Problem::Unbindable => "Unbindable",
        Problem::InFunctionSpace => "InFunctionSpace",
        Problem::UnknownSize { .. } => "UnknownSize",
    }
}

impl ToJson for Problem {
    ghost form = { problem_form };

    #[tactic(auto, unfolding(crate::specs::MisfitJson::problem_form, crate::specs::MisfitJson::problem_held, crate::specs::JsonForm::variant))]
    fn write_json(&self, out: &mut JsonWriter) -> Result<(), AllocError> {
        let variant = problem_name(self);
        match self {
            Problem::Handle { of, index, below } => holding_three(
                out,
                &(variant, "of", "index", "below"),
                of,
                index,
                below,
            ),
            Problem::Length { found, wanted } => holding_two(
                out,
                &(variant, "found", "wanted"),
                found,
                wanted,
            ),
            Problem::TooMany { found } => holding_field(out, &(variant, "found"), found),
            Problem::Backwards { start, end } => holding_two(
                out,
                &(variant, "start", "end"),
                start,
                end,
            ),
            Problem::PastEnd { end, count } => holding_two(
                out,
                &(variant, "end", "count"),
                end,
                count,
            ),
            Problem::Unbindable | Problem::InFunctionSpace => out.string(variant),
            Problem::UnknownSize { ty } => holding_field(out, &(variant, "ty"), ty),
        }
    }
}

impl ToJson for Misfit {
    ghost form = { misfit_form };

    fn write_json(&self, out: &mut JsonWriter) -> Result<(), AllocError> {
        two_fields(out, &("place", "problem"), &self.place, &self.problem)
    }
}
