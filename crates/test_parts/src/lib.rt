//! Tests of the IR (texts, clones, spans) and of errors, of inputs and outputs, and of lower layers and what they compute.
#![tactic(auto)]

#[cfg(test)]
mod tests;
