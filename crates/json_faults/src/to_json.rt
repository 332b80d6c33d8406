//! What can be written as JSON: numbers, texts, lists.

ghost use Rattle.json.specs.Json.{boolean, string};
ghost use Rattle.json_faults.specs.JsonForm.{Writes, list_form, number_form, optional, signed_form, span_form, two_items};

use crate::writer::JsonWriter;
use ir_arena::{Handle, Sequence, Span, tag};
use ir_errors::{UniformityDisruptor, UniformityRequirements};
use ir_leaves::Name;
use ir_types::{Disalignment, ImmediateError};
use std::alloc::AllocError;

/// What can be written as JSON.
pub trait ToJson {
    ghost use Rattle.json.specs.Json.{Json};
    ghost use Rattle.json_faults.specs.JsonForm.{Writes};

    /// The JSON value that is written for it.
    ghost form: { Self → Json };

    /// Writes it. An Err is out of memory.
    fn write_json(&self, out: &mut JsonWriter) -> Result<(), AllocError>
        ensures { Writes result out.old out.new (form self.now) };
}

impl ToJson for u8 {
    ghost form = { number_form };

    fn write_json(&self, out: &mut JsonWriter) -> Result<(), AllocError> {
        out.number(u64::from(*self))
    }
}

impl ToJson for u32 {
    ghost form = { number_form };

    fn write_json(&self, out: &mut JsonWriter) -> Result<(), AllocError> {
        out.number(u64::from(*self))
    }
}

impl ToJson for usize {
    ghost form = { number_form };

    fn write_json(&self, out: &mut JsonWriter) -> Result<(), AllocError> {
        out.number(*self as u64)
    }
}

impl ToJson for i32 {
    ghost form = { signed_form };

    fn write_json(&self, out: &mut JsonWriter) -> Result<(), AllocError> {
        out.signed(i64::from(*self))
    }
}

impl ToJson for bool {
    ghost form = { boolean };

    fn write_json(&self, out: &mut JsonWriter) -> Result<(), AllocError> {
        out.boolean(*self)
    }
}

/// A handle is its index, here and below.
impl ToJson for Handle<tag::Type> {
    ghost form = { number_form };

    fn write_json(&self, out: &mut JsonWriter) -> Result<(), AllocError> {
        out.number(self.index() as u64)
    }
}

impl ToJson for Handle<tag::Override> {
    ghost form = { number_form };

    fn write_json(&self, out: &mut JsonWriter) -> Result<(), AllocError> {
        out.number(self.index() as u64)
    }
}

impl ToJson for Handle<tag::GlobalVariable> {
    ghost form = { number_form };

    fn write_json(&self, out: &mut JsonWriter) -> Result<(), AllocError> {
        out.number(self.index() as u64)
    }
}

impl ToJson for Handle<tag::LocalVariable> {
    ghost form = { number_form };

    fn write_json(&self, out: &mut JsonWriter) -> Result<(), AllocError> {
        out.number(self.index() as u64)
    }
}

impl ToJson for Handle<tag::Expression> {
    ghost form = { number_form };

    fn write_json(&self, out: &mut JsonWriter) -> Result<(), AllocError> {
        out.number(self.index() as u64)
    }
}

impl ToJson for Handle<tag::Function> {
    ghost form = { number_form };

    fn write_json(&self, out: &mut JsonWriter) -> Result<(), AllocError> {
        out.number(self.index() as u64)
    }
}

impl ToJson for Disalignment {
    ghost form = { λ reason. number_form reason.0 };

    fn write_json(&self, out: &mut JsonWriter) -> Result<(), AllocError> {
        self.0.write_json(out)
    }
}

impl ToJson for ImmediateError {
    ghost form = { λ reason. number_form reason.0 };

    fn write_json(&self, out: &mut JsonWriter) -> Result<(), AllocError> {
        self.0.write_json(out)
    }
}

impl ToJson for UniformityRequirements {
    ghost form = { λ requirements. number_form requirements.0 };

    fn write_json(&self, out: &mut JsonWriter) -> Result<(), AllocError> {
        self.0.write_json(out)
    }
}

impl ToJson for UniformityDisruptor {
    ghost form = { λ disruptor. number_form disruptor.0 };

    fn write_json(&self, out: &mut JsonWriter) -> Result<(), AllocError> {
        self.0.write_json(out)
    }
}

impl ToJson for &str {
    ghost form = { λ text. string text.now };

    fn write_json(&self, out: &mut JsonWriter) -> Result<(), AllocError> {
        out.string(*self)
    }
}

impl ToJson for Name {
    ghost form = { string };

    fn write_json(&self, out: &mut JsonWriter) -> Result<(), AllocError> {
        out.string(self.as_str())
    }
}

/// Null, or the value.
impl<T: ToJson> ToJson for Option<T> {
    ghost form = { optional T.form };

    #[tactic(auto, unfolding(crate::specs::JsonForm::optional))]
    fn write_json(&self, out: &mut JsonWriter) -> Result<(), AllocError> {
        match self {
            Some(value) => value.write_json(out),
            None => out.null(),
        }
    }
}

/// A list.
#[tactic(auto, unfolding(crate::specs::JsonForm::list_form))]
pub fn write_list<T: ToJson>(out: &mut JsonWriter, items: &[T]) -> Result<(), AllocError>
    ensures { Writes result out.old out.new (list_form T.form items.now) }
{
    out.begin_array()?;
    for item in items {
        item.write_json(out)?;
    }
    out.end_array()
}

impl<T: ToJson> ToJson for Sequence<T> {
    ghost form = { list_form T.form };

    fn write_json(&self, out: &mut JsonWriter) -> Result<(), AllocError> {
        write_list(out, self.as_slice())
    }
}

/// Two numbers.
#[tactic(auto, unfolding(crate::specs::JsonForm::two_items))]
fn write_two(out: &mut JsonWriter, first: u32, second: u32) -> Result<(), AllocError>
    ensures { Writes result out.old out.new (two_items (number_form first) (number_form second)) }
{
    out.begin_array()?;
    out.number(u64::from(first))?;
    out.number(u64::from(second))?;
    out.end_array()
}

impl ToJson for Span {
    ghost form = { span_form };

    fn write_json(&self, out: &mut JsonWriter) -> Result<(), AllocError> {
        write_two(out, self.start, self.end)
    }
}
