//! Tests of functions, globals, entry points, modules and messages, through `Validator` and `check_module`; malicious modules.
#![tactic(auto)]

#[cfg(test)]
mod promised;
#[cfg(test)]
mod tests;
