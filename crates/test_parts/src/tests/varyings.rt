//! What no document says of inputs and outputs: rows of built-ins at places that no entry point has, and what is kept of an item.
//! What an item alone gets at each place of an entry point is judged by tools/tables, and by documents of the stored run.

mod items;
mod places;
