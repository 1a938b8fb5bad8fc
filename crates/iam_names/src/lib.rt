//! The names of nodes, callers, members, roles and permissions, and their texts.
//!
//! Each type has a definition of its text (as `caller_text`) and a fact that says which of its values are well
//! formed (as `IsCaller`). `read` gives the well formed value that has a text, and nothing exactly where there is
//! none; `text` writes each value. So what was written is read back. Layers above compare names by the functions
//! `same_..`, which decide whether two values are one, and copy them by `copy_..`, whose copies equal their values.
#![tactic(auto)]

mod bytes;
mod caller;
mod deny;
mod digits;
mod display;
mod domain;
mod email;
mod limits;
mod member;
mod node;
mod number;
mod permission;
mod pool;
mod principal_set;
mod role;
mod text;

pub use caller::{Caller, copy_caller, same_caller};
pub use deny::{DenyPrincipal, copy_deny_principal, same_deny_principal};
pub use digits::read_digits;
pub use display::{is_folder_display, is_project_display};
pub use domain::{is_customer, is_domain};
pub use email::{Email, copy_email, same_email};
pub use member::{Leaf, Member, copy_leaf, copy_member, same_leaf, same_member};
pub use node::{
    NodeId, NodeKind, NodeName, copy_node_name, is_project_id, same_node_id, same_node_kind,
    same_node_name,
};
pub use number::read_number;
pub use permission::{
    PermissionGroup, PermissionName, copy_permission, copy_permission_group, same_permission,
    same_permission_group,
};
pub use pool::{Pool, copy_pool, same_pool};
pub use principal_set::{PrincipalSet, copy_principal_set, same_principal_set};
pub use role::{RoleName, copy_role_name, same_role_name};
