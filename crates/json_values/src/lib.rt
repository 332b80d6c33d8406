//! Reads values of a JSON document by what they stand for (the trait [`FromJson`]): objects, variants, lists, sets, numbers and
//! scalars. Part of `naga_judge`; no promise to users.
#![tactic(auto)]

mod error;
mod expected;
mod from_json;
mod list;
mod number;
mod scalars;
mod set;
mod variant;

pub use crate::error::{ReadError, Unreadable};
pub use crate::expected::expected_fields;
pub use crate::from_json::{FromJson, Held, has_field};
pub use crate::list::{elements, fitted, triple_in};
pub use crate::number::byte;
pub use crate::variant::{Holding, Variant, read_either, read_holding, read_name, read_variant};
