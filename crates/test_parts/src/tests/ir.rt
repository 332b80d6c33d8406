//! The IR: what is printed, clones, and spans, which no clause says; and worked rows.

mod clones;
mod errors;
mod rows;
mod spans;
