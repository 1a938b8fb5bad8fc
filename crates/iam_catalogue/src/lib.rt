//! The catalogue of permissions and predefined roles.
//!
//! A `Catalogue` holds exactly the table of `iam_model`'s definitions.
#![tactic(auto)]

mod catalogue;
mod known;
mod lines;
mod permits;
mod preset_lines;
mod presets;

pub use catalogue::Catalogue;
pub use known::{is_permission, is_preset, same_role};
pub use permits::permission_named;
