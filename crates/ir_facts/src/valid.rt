//! What validation depends on and what it finds: settings, and the infos of types and functions.

pub mod info;
pub mod settings;
