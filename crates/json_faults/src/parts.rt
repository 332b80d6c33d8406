//! Objects with so many fields, and variants with what they hold. The names stand in one tuple at each call.

ghost use Rattle.std.specs.Prelude.{◌≡◌, ◌++◌, ◌∷◌, OnOk};
ghost use Rattle.json.specs.Token.{key};
ghost use Rattle.json.specs.Tree.{json_tokens};
ghost use Rattle.json_faults.specs.JsonForm.{Writes, holding, one_field, two_fields, three_fields, four_fields, five_fields, two_items, three_items};

use crate::to_json::ToJson;
use crate::writer::JsonWriter;
use std::alloc::AllocError;

/// A variant that holds one value: `{"NAME":VALUE}`.
#[tactic(auto, unfolding(crate::specs::JsonForm::holding))]
pub fn holding<A: ToJson>(out: &mut JsonWriter, name: &str, a: &A) -> Result<(), AllocError>
    ensures { Writes result out.old out.new (holding name.now (A.form a.now)) }
{
    out.open(name)?;
    a.write_json(out)?;
    out.end_object()
}

/// A list of two.
#[tactic(auto, unfolding(crate::specs::JsonForm::two_items))]
fn two_items<A: ToJson, B: ToJson>(out: &mut JsonWriter, a: &A, b: &B) -> Result<(), AllocError>
    ensures { Writes result out.old out.new (two_items (A.form a.now) (B.form b.now)) }
{
    out.begin_array()?;
    a.write_json(out)?;
    b.write_json(out)?;
    out.end_array()
}

/// A variant that holds two values: `{"NAME":[A,B]}`.
#[tactic(auto, unfolding(crate::specs::JsonForm::holding))]
pub(crate) fn holding_pair<A: ToJson, B: ToJson>(
    out: &mut JsonWriter,
    name: &str,
    a: &A,
    b: &B,
) -> Result<(), AllocError>
    ensures { Writes result out.old out.new (holding name.now (two_items (A.form a.now) (B.form b.now))) }
{
    out.open(name)?;
    two_items(out, a, b)?;
    out.end_object()
}

/// A list of three.
#[tactic(auto, unfolding(crate::specs::JsonForm::three_items))]
fn three_items<A: ToJson, B: ToJson, C: ToJson>(
    out: &mut JsonWriter,
    a: &A,
    b: &B,
    c: &C,
) -> Result<(), AllocError>
    ensures { Writes result out.old out.new (three_items (A.form a.now) (B.form b.now) (C.form c.now)) }
{
    out.begin_array()?;
    a.write_json(out)?;
    b.write_json(out)?;
    c.write_json(out)?;
    out.end_array()
}

/// A variant that holds three values: `{"NAME":[A,B,C]}`.
#[tactic(auto, unfolding(crate::specs::JsonForm::holding))]
pub(crate) fn holding_triple<A: ToJson, B: ToJson, C: ToJson>(
    out: &mut JsonWriter,
    name: &str,
    a: &A,
    b: &B,
    c: &C,
) -> Result<(), AllocError>
    ensures { Writes result out.old out.new (holding name.now (three_items (A.form a.now) (B.form b.now) (C.form c.now))) }
{
    out.open(name)?;
    three_items(out, a, b, c)?;
    out.end_object()
}

/// A field: its name, and a value.
fn field<A: ToJson>(out: &mut JsonWriter, name: &str, a: &A) -> Result<(), AllocError>
    ensures { OnOk result (out.new ≡ out.old ++ key name.now ∷ json_tokens (A.form a.now)) }
{
    out.key(name)?;
    a.write_json(out)
}

/// An object with one field.
#[tactic(auto, unfolding(crate::specs::JsonForm::one_field))]
fn one_field<A: ToJson>(out: &mut JsonWriter, name: &str, a: &A) -> Result<(), AllocError>
    ensures { Writes result out.old out.new (one_field name.now (A.form a.now)) }
{
    out.begin_object()?;
    field(out, name, a)?;
    out.end_object()
}

/// An object with two fields.
#[tactic(auto, unfolding(crate::specs::JsonForm::two_fields))]
pub fn two_fields<A: ToJson, B: ToJson>(
    out: &mut JsonWriter,
    names: &(&str, &str),
    a: &A,
    b: &B,
) -> Result<(), AllocError>
    ensures { Writes result out.old out.new (two_fields names.now.0.now (A.form a.now) names.now.1.now (B.form b.now)) }
{
    out.begin_object()?;
    field(out, names.0, a)?;
    field(out, names.1, b)?;
    out.end_object()
}

/// An object with three fields.
#[tactic(auto, unfolding(crate::specs::JsonForm::three_fields))]
pub(crate) fn three_fields<A: ToJson, B: ToJson, C: ToJson>(
    out: &mut JsonWriter,
    names: &(&str, &str, &str),
    a: &A,
    b: &B,
    c: &C,
) -> Result<(), AllocError>
    ensures { Writes result out.old out.new (three_fields names.now.0.now (A.form a.now)
        names.now.1.now (B.form b.now) names.now.2.now (C.form c.now)) }
{
    out.begin_object()?;
    field(out, names.0, a)?;
    field(out, names.1, b)?;
    field(out, names.2, c)?;
    out.end_object()
}

/// An object with four fields.
#[tactic(auto, unfolding(crate::specs::JsonForm::four_fields))]
pub fn four_fields<A: ToJson, B: ToJson, C: ToJson, D: ToJson>(
    out: &mut JsonWriter,
    names: &(&str, &str, &str, &str),
    a: &A,
    b: &B,
    c: &C,
    d: &D,
) -> Result<(), AllocError>
    ensures { Writes result out.old out.new (four_fields names.now.0.now (A.form a.now) names.now.1.now (B.form b.now)
        names.now.2.now (C.form c.now) names.now.3.now (D.form d.now)) }
{
    out.begin_object()?;
    field(out, names.0, a)?;
    field(out, names.1, b)?;
    field(out, names.2, c)?;
    field(out, names.3, d)?;
    out.end_object()
}

/// An object with five fields.
#[tactic(auto, unfolding(crate::specs::JsonForm::five_fields))]
fn five_fields<A: ToJson, B: ToJson, C: ToJson, D: ToJson, E: ToJson>(
    out: &mut JsonWriter,
    names: &(&str, &str, &str, &str, &str),
    a: &A,
    b: &B,
    c: &C,
    d: &D,
    e: &E,
) -> Result<(), AllocError>
    ensures { Writes result out.old out.new (five_fields names.now.0.now (A.form a.now) names.now.1.now (B.form b.now)
        names.now.2.now (C.form c.now) names.now.3.now (D.form d.now) names.now.4.now (E.form e.now)) }
{
    out.begin_object()?;
    field(out, names.0, a)?;
    field(out, names.1, b)?;
    field(out, names.2, c)?;
    field(out, names.3, d)?;
    field(out, names.4, e)?;
    out.end_object()
}

/// A variant with one field: `{"NAME":{"FIELD":VALUE}}`. The variant's name stands first, here and below.
#[tactic(auto, unfolding(crate::specs::JsonForm::holding))]
pub(crate) fn holding_field<A: ToJson>(
    out: &mut JsonWriter,
    names: &(&str, &str),
    a: &A,
) -> Result<(), AllocError>
    ensures { Writes result out.old out.new (holding names.now.0.now (one_field names.now.1.now (A.form a.now))) }
{
    out.open(names.0)?;
    one_field(out, names.1, a)?;
    out.end_object()
}

/// A variant with two fields.
#[tactic(auto, unfolding(crate::specs::JsonForm::holding))]
pub(crate) fn holding_two<A: ToJson, B: ToJson>(
    out: &mut JsonWriter,
    names: &(&str, &str, &str),
    a: &A,
    b: &B,
) -> Result<(), AllocError>
    ensures { Writes result out.old out.new (holding names.now.0.now
        (two_fields names.now.1.now (A.form a.now) names.now.2.now (B.form b.now))) }
{
    out.open(names.0)?;
    two_fields(out, &(names.1, names.2), a, b)?;
    out.end_object()
}

/// A variant with three fields.
#[tactic(auto, unfolding(crate::specs::JsonForm::holding))]
pub(crate) fn holding_three<A: ToJson, B: ToJson, C: ToJson>(
    out: &mut JsonWriter,
    names: &(&str, &str, &str, &str),
    a: &A,
    b: &B,
    c: &C,
) -> Result<(), AllocError>
    ensures { Writes result out.old out.new (holding names.now.0.now
        (three_fields names.now.1.now (A.form a.now) names.now.2.now (B.form b.now) names.now.3.now (C.form c.now))) }
{
    out.open(names.0)?;
    three_fields(out, &(names.1, names.2, names.3), a, b, c)?;
    out.end_object()
}

/// A variant with five fields.
#[tactic(auto, unfolding(crate::specs::JsonForm::holding))]
pub(crate) fn holding_five<A: ToJson, B: ToJson, C: ToJson, D: ToJson, E: ToJson>(
    out: &mut JsonWriter,
    names: &(&str, &str, &str, &str, &str, &str),
    a: &A,
    b: &B,
    c: &C,
    d: &D,
    e: &E,
) -> Result<(), AllocError>
    ensures { Writes result out.old out.new (holding names.now.0.now
        (five_fields names.now.1.now (A.form a.now) names.now.2.now (B.form b.now) names.now.3.now (C.form c.now)
        names.now.4.now (D.form d.now) names.now.5.now (E.form e.now))) }
{
    out.open(names.0)?;
    five_fields(
        out,
        &(names.1, names.2, names.3, names.4, names.5),
        a,
        b,
        c,
        d,
        e,
    )?;
    out.end_object()
}
