//! The steps of a JSON pointer.

/// A step from a value of the document to one inside it: to a field, to what a variant holds, or to a place in a list.
#[derive(Clone, Copy, PartialEq, Eq, Debug)]
pub enum Step {
    Name(&'static str),
    Index(usize),
}
