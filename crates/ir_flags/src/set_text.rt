//! How sets of named bits print.

use bitflags::Flags;
use bitflags::parser::{WriteHex, to_writer};
use std::fmt;

/// Writes the type's name, and in brackets the names of the set's bits: `Barrier(STORAGE | TEXTURE)`.
///
/// Bits without a name follow as one number. An empty set is `0x0`.
pub(crate) fn write_set<B: Flags, W: fmt::Write>(
    name: &str,
    set: &B,
    f: &mut fmt::Formatter<W>,
) -> fmt::Result
where
    <B as Flags>::Bits: WriteHex,
{
    f.write_str(name)?;
    f.write_str("(")?;
    if set.is_empty() {
        f.write_str("0x0")?;
    } else {
        to_writer(set, f)?;
    }
    f.write_str(")")
}
