//! What can be read from a value of the document, and the fields of objects.

ghost use Rattle.std.specs.Prelude.{◌≡◌, is_some};
ghost use Rattle.serde_json.specs.Find.{get};
ghost use Rattle.json_nodes.specs.Fields.{has_each};
ghost use Rattle.json_nodes.specs.Nodes.{data_of};
ghost use Rattle.json_values.specs.Failures.{IsUnreadable};
ghost use Rattle.json_values.specs.Form.{field_of, has_field, has_only, one_field, two_fields, three_fields, four_fields, five_fields, six_fields, eight_fields};
ghost use Rattle.json_values.specs.Reads.{ReadsMeaning, ReadsAs, texts_of};
ghost use Rattle.json_values.specs.ReadsFields.{ReadsFields, ReadsTwo, ReadsThree, ReadsFour};

use crate::error::ReadError;
use crate::expected::expected_fields;
use json_nodes::{Node, Step};
use std::alloc::Global;

/// What can be read from a value of a document, by a reader `R`.
///
/// What this crate reads, every reader reads. A crate above, which says how types of other crates are read, says so for a
/// reader of its own, since an impl names a type of its crate.
pub trait FromJson<R: Copy>: Drop {
    ghost use Rattle.std.specs.Prelude.{Option};
    ghost use Rattle.serde_json.specs.Data.{Data};

    /// What a value stands for, if it stands for something.
    ghost stands_for: { Data → Option Self };

    /// What the value stands for, or where reading stopped. It is given without the variant that holds it, whose step
    /// [`Held::read`] adds.
    fn from_json(reader: R, held: Held) -> Result<Self, ReadError>
        ensures { ReadsMeaning (stands_for (data_of held.entry.value.now)) result };
}

/// What stands a step away.
pub(crate) fn read_at<R: Copy, T: FromJson<R>>(
    reader: R,
    alloc: Global,
    step: Step,
    value: &Node,
) -> Result<T, ReadError>
    ensures { ReadsMeaning (T.stands_for (data_of value.now)) result }
{
    let inner = Held::new(alloc, value);
    match T::from_json(reader, inner) {
        Ok(read) => Ok(read),
        Err(error) => Err(error.within(step)),
    }
}

/// Whether it is an object with this field.
pub fn has_field(value: &Node, name: &str) -> bool
    ensures { result ≡ has_field name.now (data_of value.now) }
{
    value.get(name).is_some()
}

/// Whether each of these is a field.
fn has_each(value: &Node, names: &[&'static str]) -> bool
    ensures { result ≡ has_each (texts_of names.now) (data_of value.now) }
{
    for name in names {
        if !has_field(value, *name) {
            return false;
        }
    }
    true
}

/// Whether it is an object with exactly these fields.
fn has_only(value: &Node, names: &[&'static str]) -> bool
    ensures { result ≡ has_only (texts_of names.now) (data_of value.now) }
{
    value.has_in_order(names) || value.has_no_other(names) && has_each(value, names)
}

/// A value that is to be read, and the name of the variant that holds it, where one does.
#[derive(Clone, Copy)]
pub struct Held<'h, 'v> {
    pub alloc: Global,
    pub value: &'h Node<'v>,
    pub variant: Option<&'static str>,
}

impl<'h, 'v> Held<'h, 'v> {
    /// A value that no variant holds.
    pub fn new(alloc: Global, value: &'h Node<'v>) -> Held<'h, 'v>
        ensures { data_of result.value.now ≡ data_of value.now }
    {
        Held {
            alloc,
            value,
            variant: None,
        }
    }

    /// The error of this value, seen from the variant that holds it.
    pub fn outside(self, error: ReadError) -> ReadError
        ensures { IsUnreadable result → IsUnreadable error }
    {
        match self.variant {
            Some(variant) => error.within(Step::Name(variant)),
            None => error,
        }
    }

    /// What it stands for.
    pub fn read<R: Copy, T: FromJson<R>>(self, reader: R) -> Result<T, ReadError>
        ensures { ReadsMeaning (T.stands_for (data_of self.entry.value.now)) result }
    {
        let inner = Held::new(self.alloc, self.value);
        match T::from_json(reader, inner) {
            Ok(read) => Ok(read),
            Err(error) => Err(self.outside(error)),
        }
    }

    /// The error of a field, or of what lies in it.
    pub fn in_field(self, error: ReadError, name: &'static str) -> ReadError
        ensures { IsUnreadable result → IsUnreadable error }
    {
        self.outside(error.within(Step::Name(name)))
    }

    /// Makes sure that it is an object with exactly these fields.
    pub fn fields(self, names: &[&'static str]) -> Result<(), ReadError>
        ensures { ReadsFields (has_only (texts_of names.now) (data_of self.entry.value.now)) result }
    {
        if has_only(self.value, names) {
            return Ok(());
        }
        Err(self.outside(expected_fields(self.alloc, self.value, names)))
    }

    /// The value of a field.
    pub fn member(self, name: &'static str) -> Result<Node<'v>, ReadError>
        ensures { ReadsAs data_of (get name.now (data_of self.entry.value.now)) result }
    {
        match self.value.get(name) {
            Some(value) => Ok(value),
            None => Err(ReadError::expected(self.alloc, "a field that is missing")),
        }
    }

    /// What a field stands for.
    pub fn get<R: Copy, T: FromJson<R>>(self, reader: R, name: &'static str) -> Result<T, ReadError>
        ensures { ReadsMeaning (field_of T.stands_for name.now (data_of self.entry.value.now)) result }
    {
        match self.value.get(name) {
            Some(value) => {
                let inner = Held::new(self.alloc, &value);
                match T::from_json(reader, inner) {
                    Ok(read) => Ok(read),
                    Err(error) => Err(self.in_field(error, name)),
                }
            }
            None => Err(ReadError::expected(self.alloc, "a field that is missing")),
        }
    }

    /// What two fields stand for.
    fn pair<R: Copy, A: FromJson<R>, B: FromJson<R>>(
        self,
        reader: R,
        first: &'static str,
        second: &'static str,
    ) -> Result<(A, B), ReadError>
        ensures { ReadsTwo (field_of A.stands_for first.now (data_of self.entry.value.now))
            (field_of B.stands_for second.now (data_of self.entry.value.now)) result }
    {
        match self.get(reader, first) {
            Ok(a) => match self.get(reader, second) {
                Ok(b) => Ok((a, b)),
                Err(error) => Err(error),
            },
            Err(error) => Err(error),
        }
    }

    /// What three fields stand for.
    fn triple<R: Copy, A: FromJson<R>, B: FromJson<R>, C: FromJson<R>>(
        self,
        reader: R,
        first: &'static str,
        second: &'static str,
        third: &'static str,
    ) -> Result<(A, B, C), ReadError>
        ensures { ReadsThree (field_of A.stands_for first.now (data_of self.entry.value.now))
            (field_of B.stands_for second.now (data_of self.entry.value.now))
            (field_of C.stands_for third.now (data_of self.entry.value.now)) result }
    {
        match self.pair(reader, first, second) {
            Ok((a, b)) => match self.get(reader, third) {
                Ok(c) => Ok((a, b, c)),
                Err(error) => Err(error),
            },
            Err(error) => Err(error),
        }
    }

    /// What four fields stand for.
    fn quad<R: Copy, A: FromJson<R>, B: FromJson<R>, C: FromJson<R>, D: FromJson<R>>(
        self,
        reader: R,
        first: &'static str,
        second: &'static str,
        third: &'static str,
        fourth: &'static str,
    ) -> Result<(A, B, C, D), ReadError>
        ensures { ReadsFour (field_of A.stands_for first.now (data_of self.entry.value.now))
            (field_of B.stands_for second.now (data_of self.entry.value.now))
            (field_of C.stands_for third.now (data_of self.entry.value.now))
            (field_of D.stands_for fourth.now (data_of self.entry.value.now)) result }
    {
        match self.pair(reader, first, second) {
            Ok((a, b)) => match self.pair(reader, third, fourth) {
                Ok((c, d)) => Ok((a, b, c, d)),
                Err(error) => Err(error),
            },
            Err(error) => Err(error),
        }
    }

    /// What the field of an object with exactly this one stands for.
    #[tactic(auto, unfolding(crate::specs::Form::one_field))]
    pub fn one<R: Copy, A: FromJson<R>>(self, reader: R, name: &'static str) -> Result<A, ReadError>
        ensures { ReadsMeaning (one_field name.now A.stands_for (data_of self.entry.value.now)) result }
    {
        match self.fields(&[name]) {
            Ok(()) => self.get(reader, name),
            Err(error) => Err(error),
        }
    }

    /// What the fields of an object with exactly these two stand for.
    #[tactic(auto, unfolding(crate::specs::Form::two_fields))]
    pub fn two<R: Copy, A: FromJson<R>, B: FromJson<R>>(
        self,
        reader: R,
        names: &(&'static str, &'static str),
    ) -> Result<(A, B), ReadError>
        ensures { ReadsMeaning (two_fields names.now.0.now A.stands_for names.now.1.now B.stands_for
            (data_of self.entry.value.now)) result }
    {
        match self.fields(&[names.0, names.1]) {
            Ok(()) => self.pair(reader, names.0, names.1),
            Err(error) => Err(error),
        }
    }

    /// What the fields of an object with exactly these three stand for.
    #[tactic(auto, unfolding(crate::specs::Form::three_fields))]
    pub fn three<R: Copy, A: FromJson<R>, B: FromJson<R>, C: FromJson<R>>(
        self,
        reader: R,
        names: &(&'static str, &'static str, &'static str),
    ) -> Result<(A, B, C), ReadError>
        ensures { ReadsMeaning (three_fields names.now.0.now A.stands_for names.now.1.now B.stands_for
            names.now.2.now C.stands_for (data_of self.entry.value.now)) result }
    {
        match self.fields(&[names.0, names.1, names.2]) {
            Ok(()) => self.triple(reader, names.0, names.1, names.2),
            Err(error) => Err(error),
        }
    }

    /// What the fields of an object with exactly these four stand for.
    #[tactic(auto, unfolding(crate::specs::Form::four_fields))]
    pub fn four<R: Copy, A: FromJson<R>, B: FromJson<R>, C: FromJson<R>, D: FromJson<R>>(
        self,
        reader: R,
        names: &(&'static str, &'static str, &'static str, &'static str),
    ) -> Result<(A, B, C, D), ReadError>
        ensures { ReadsMeaning (four_fields names.now.0.now A.stands_for names.now.1.now B.stands_for
            names.now.2.now C.stands_for names.now.3.now D.stands_for (data_of self.entry.value.now)) result }
    {
        match self.fields(&[names.0, names.1, names.2, names.3]) {
            Ok(()) => self.quad(reader, names.0, names.1, names.2, names.3),
            Err(error) => Err(error),
        }
    }

    /// What the fields of an object with exactly these five stand for.
    #[tactic(auto, unfolding(crate::specs::Form::five_fields))]
    pub fn five<
        R: Copy,
        A: FromJson<R>,
        B: FromJson<R>,
        C: FromJson<R>,
        D: FromJson<R>,
        E: FromJson<R>,
    >(
        self,
        reader: R,
        names: &(
            &'static str,
            &'static str,
            &'static str,
            &'static str,
            &'static str,
        ),
    ) -> Result<(A, B, C, D, E), ReadError>
        ensures { ReadsMeaning (five_fields names.now.0.now A.stands_for names.now.1.now B.stands_for names.now.2.now C.stands_for
            names.now.3.now D.stands_for names.now.4.now E.stands_for (data_of self.entry.value.now)) result }
    {
        match self.fields(&[names.0, names.1, names.2, names.3, names.4]) {
            Ok(()) => match self.quad(reader, names.0, names.1, names.2, names.3) {
                Ok((a, b, c, d)) => match self.get(reader, names.4) {
                    Ok(e) => Ok((a, b, c, d, e)),
                    Err(error) => Err(error),
                },
                Err(error) => Err(error),
            },
            Err(error) => Err(error),
        }
    }

    /// What the fields of an object with exactly these six stand for.
    #[tactic(auto, unfolding(crate::specs::Form::six_fields))]
    pub fn six<
        R: Copy,
        A: FromJson<R>,
        B: FromJson<R>,
        C: FromJson<R>,
        D: FromJson<R>,
        E: FromJson<R>,
        F: FromJson<R>,
    >(
        self,
        reader: R,
        names: &(
            &'static str,
            &'static str,
            &'static str,
            &'static str,
            &'static str,
            &'static str,
        ),
    ) -> Result<(A, B, C, D, E, F), ReadError>
        ensures { ReadsMeaning (six_fields names.now.0.now A.stands_for names.now.1.now B.stands_for
            names.now.2.now C.stands_for names.now.3.now D.stands_for names.now.4.now E.stands_for names.now.5.now F.stands_for
            (data_of self.entry.value.now)) result }
    {
        match self.fields(&[names.0, names.1, names.2, names.3, names.4, names.5]) {
            Ok(()) => match self.triple(reader, names.0, names.1, names.2) {
                Ok((a, b, c)) => match self.triple(reader, names.3, names.4, names.5) {
                    Ok((d, e, f)) => Ok((a, b, c, d, e, f)),
                    Err(error) => Err(error),
                },
                Err(error) => Err(error),
            },
            Err(error) => Err(error),
        }
    }

    /// What the fields of an object with exactly these eight stand for.
    #[tactic(auto, unfolding(crate::specs::Form::eight_fields))]
    pub fn eight<
        R: Copy,
        A: FromJson<R>,
        B: FromJson<R>,
        C: FromJson<R>,
        D: FromJson<R>,
        E: FromJson<R>,
        F: FromJson<R>,
        G: FromJson<R>,
        H: FromJson<R>,
    >(
        self,
        reader: R,
        names: &(
            &'static str,
            &'static str,
            &'static str,
            &'static str,
            &'static str,
            &'static str,
            &'static str,
            &'static str,
        ),
    ) -> Result<(A, B, C, D, E, F, G, H), ReadError>
        ensures { ReadsMeaning (eight_fields names.now.0.now A.stands_for names.now.1.now B.stands_for
            names.now.2.now C.stands_for names.now.3.now D.stands_for names.now.4.now E.stands_for names.now.5.now F.stands_for
            names.now.6.now G.stands_for names.now.7.now H.stands_for (data_of self.entry.value.now)) result }
    {
        match self.fields(&[
            names.0, names.1, names.2, names.3, names.4, names.5, names.6, names.7,
        ]) {
            Ok(()) => match self.quad(reader, names.0, names.1, names.2, names.3) {
                Ok((a, b, c, d)) => match self.quad(reader, names.4, names.5, names.6, names.7) {
                    Ok((e, f, g, h)) => Ok((a, b, c, d, e, f, g, h)),
                    Err(error) => Err(error),
                },
                Err(error) => Err(error),
            },
            Err(error) => Err(error),
        }
    }
}
