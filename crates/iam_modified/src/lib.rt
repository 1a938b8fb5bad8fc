//! The roles of which the setting of a policy gives or takes grants.
#![tactic(auto)]

mod modified;

pub use modified::modified_roles;
