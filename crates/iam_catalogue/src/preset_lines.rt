// The lines of the predefined roles.
ghost use Rattle.std.specs.Prelude.{◌≡◌, map};
ghost use Rattle.iam_model.specs.Presets.{preset_lines};
ghost use Rattle.iam_catalogue.specs.Lines.{preset_line_of};

use iam_types::Level;

/// Permissions by their service, resource, verb and level. What isn't given stands for all.
pub struct PermitPattern {
    pub service: Option<&'static str>,
    pub resource: Option<&'static str>,
    pub verbs: &'static [&'static str],
    pub level: Option<Level>,
}

/// A predefined role, by what stands behind `roles/`, and its permissions.
pub struct RoleLine {
    pub id: &'static str,
    pub patterns: &'static [PermitPattern],
}

// All of a service, these verbs of it, all of a resource, these verbs of it, and a verb of whatever it is.
macro_rules! pattern {
    ($service:expr) => {
        PermitPattern { service: Some($service), resource: None, verbs: &[], level: None }
    };
    ($service:expr, [$($verb:expr),*]) => {
        PermitPattern { service: Some($service), resource: None, verbs: &[$($verb),*], level: None }
    };
    ($service:expr, $resource:expr) => {
        PermitPattern { service: Some($service), resource: Some($resource), verbs: &[], level: None }
    };
    ($service:expr, $resource:expr, [$($verb:expr),*]) => {
        PermitPattern { service: Some($service), resource: Some($resource), verbs: &[$($verb),*], level: None }
    };
    (every $verb:expr) => {
        PermitPattern { service: None, resource: None, verbs: &[$verb], level: None }
    };
}

const MANAGER: &str = "resourcemanager";

const VIEWED_PROJECTS: PermitPattern = pattern!(MANAGER, "projects", ["get", "list"]);

const VIEWED_STORAGE: PermitPattern = pattern!("storage", ["get", "list"]);

const VIEWED_COMPUTE: PermitPattern = pattern!("compute", ["get", "list"]);

const STORAGE: PermitPattern = pattern!("storage");

const COMPUTE: PermitPattern = pattern!("compute");

const PROJECT_LEVEL: PermitPattern = PermitPattern {
    service: Some(MANAGER),
    resource: Some("projects"),
    verbs: &[],
    level: Some(Level::Project),
};

static ROLE_LINES: [RoleLine; 10] = [
    RoleLine {
        id: "viewer",
        patterns: &[VIEWED_PROJECTS, VIEWED_STORAGE, VIEWED_COMPUTE],
    },
    RoleLine {
        id: "editor",
        patterns: &[
            VIEWED_PROJECTS,
            VIEWED_STORAGE,
            VIEWED_COMPUTE,
            STORAGE,
            COMPUTE,
        ],
    },
    RoleLine {
        id: "owner",
        patterns: &[
            VIEWED_PROJECTS,
            VIEWED_STORAGE,
            VIEWED_COMPUTE,
            STORAGE,
            COMPUTE,
            PROJECT_LEVEL,
            pattern!("iam", "roles"),
        ],
    },
    RoleLine {
        id: "resourcemanager.organizationAdmin",
        patterns: &[pattern!(MANAGER), pattern!("iam"), pattern!("directory")],
    },
    RoleLine {
        id: "resourcemanager.folderAdmin",
        patterns: &[
            pattern!(MANAGER, "folders"),
            pattern!(MANAGER, "projects", ["create", "get", "list", "move"]),
        ],
    },
    RoleLine {
        id: "resourcemanager.projectIamAdmin",
        patterns: &[pattern!(MANAGER, "projects", ["get", "getIamPolicy", "setIamPolicy"])],
    },
    RoleLine {
        id: "resourcemanager.tagUser",
        patterns: &[
            pattern!(MANAGER, "hierarchyNodes"),
            pattern!(MANAGER, "tagKeys", ["get"]),
            pattern!(MANAGER, "tagValues", ["get"]),
        ],
    },
    RoleLine {
        id: "iam.securityReviewer",
        patterns: &[
            pattern!(every "getIamPolicy"),
            pattern!("iam", ["get", "list"]),
        ],
    },
    RoleLine {
        id: "iam.denyAdmin",
        patterns: &[pattern!("iam", "denypolicies")],
    },
    RoleLine {
        id: "storage.objectViewer",
        patterns: &[pattern!("storage", "objects", ["get", "list"])],
    },
];

#[tactic(auto, unfolding(iam_model::specs::Presets::preset_lines))]
pub fn role_lines() -> &'static [RoleLine]
    ensures { map preset_line_of result.now ≡ preset_lines }
{
    &ROLE_LINES
}
