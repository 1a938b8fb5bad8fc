//! What the tables tell: nodes and what stands above and below them, policies and roles, counts and limits, and the
//! rows that commands make.
#![tactic(auto)]

mod children;
mod count;
mod groups;
mod limits;
mod made;
mod namesakes;
mod nodes;
mod reading;
mod version;

pub use children::{children_of, count_folders, has_active_child};
pub use count::{count_all_members, count_members, members_after};
pub use groups::count_groups;
pub use limits::limit_of;
pub use made::{deleted, new_folder, new_project, policy_after, renamed, undeleted};
pub use namesakes::{has_own_name, is_folder, same_node};
pub use nodes::{
    DEEPEST, depth_below, exists, is_active, node_at, organization_of, parent_of, project_with,
    resolve, row_named, way_up,
};
pub use reading::{bindings_at, etag_of, is_role, policy_of};
pub use version::is_version;
