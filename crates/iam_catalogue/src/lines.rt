// The lines of the catalogue of permissions.
ghost use Rattle.std.specs.Prelude.{◌≡◌, map};
ghost use Rattle.iam_model.specs.Catalogue.{lines};
ghost use Rattle.iam_catalogue.specs.Lines.{line_of};

use iam_types::Level;

/// The permissions of one resource of a service.
pub struct CatalogueLine {
    pub service: &'static str,
    pub host: &'static str,
    pub resource: &'static str,
    pub verbs: &'static [&'static str],
    pub level: Level,
    pub deniable: bool,
    pub least: u8,
}

macro_rules! line {
    ($service:expr, $host:expr, $resource:expr, [$($verb:expr),*], $level:expr, $deniable:expr, $least:expr) => {
        CatalogueLine {
            service: $service,
            host: $host,
            resource: $resource,
            verbs: &[$($verb),*],
            level: $level,
            deniable: $deniable,
            least: $least,
        }
    };
}

const MANAGER: &str = "resourcemanager";

const MANAGER_HOST: &str = "cloudresourcemanager.googleapis.com";

const IAM: &str = "iam";

const IAM_HOST: &str = "iam.googleapis.com";

const STORAGE: &str = "storage";

const STORAGE_HOST: &str = "storage.googleapis.com";

static LINES: [CatalogueLine; 16] = [
    line!(
        MANAGER,
        MANAGER_HOST,
        "organizations",
        ["get"],
        Level::Organization,
        false,
        1
    ),
    line!(
        MANAGER,
        MANAGER_HOST,
        "organizations",
        ["getIamPolicy", "setIamPolicy"],
        Level::Organization,
        true,
        1
    ),
    line!(
        MANAGER,
        MANAGER_HOST,
        "folders",
        [
            "create",
            "get",
            "list",
            "update",
            "move",
            "delete",
            "undelete",
            "getIamPolicy",
            "setIamPolicy"
        ],
        Level::Folder,
        true,
        1
    ),
    line!(
        MANAGER,
        MANAGER_HOST,
        "projects",
        ["create"],
        Level::Folder,
        true,
        1
    ),
    line!(
        MANAGER,
        MANAGER_HOST,
        "projects",
        [
            "get",
            "list",
            "move",
            "delete",
            "undelete",
            "getIamPolicy",
            "setIamPolicy"
        ],
        Level::Project,
        true,
        1
    ),
    line!(
        MANAGER,
        MANAGER_HOST,
        "tagKeys",
        ["create", "get", "delete"],
        Level::Organization,
        true,
        2
    ),
    line!(
        MANAGER,
        MANAGER_HOST,
        "tagValues",
        ["create", "get", "delete"],
        Level::Organization,
        true,
        2
    ),
    line!(
        MANAGER,
        MANAGER_HOST,
        "hierarchyNodes",
        ["createTagBinding", "deleteTagBinding", "listTagBindings"],
        Level::Project,
        true,
        2
    ),
    line!(
        IAM,
        IAM_HOST,
        "roles",
        ["create", "get", "update", "delete", "undelete"],
        Level::Project,
        true,
        2
    ),
    line!(
        IAM,
        IAM_HOST,
        "denypolicies",
        ["create", "get", "list", "update", "delete"],
        Level::Project,
        true,
        2
    ),
    line!(
        IAM,
        IAM_HOST,
        "boundarypolicies",
        ["create", "get", "update", "delete"],
        Level::Organization,
        true,
        2
    ),
    line!(
        IAM,
        IAM_HOST,
        "policybindings",
        ["create", "get", "delete"],
        Level::Project,
        true,
        2
    ),
    line!(
        "directory",
        "directory.iamd.internal",
        "groups",
        ["create", "get", "update", "delete"],
        Level::Organization,
        false,
        0
    ),
    line!(
        STORAGE,
        STORAGE_HOST,
        "buckets",
        ["get", "list", "create"],
        Level::Project,
        true,
        1
    ),
    line!(
        STORAGE,
        STORAGE_HOST,
        "objects",
        ["get", "list", "create", "delete"],
        Level::Project,
        true,
        1
    ),
    line!(
        "compute",
        "compute.googleapis.com",
        "instances",
        ["get", "list", "start", "stop", "delete"],
        Level::Project,
        true,
        3
    ),
];

#[tactic(auto, unfolding(iam_model::specs::Catalogue::lines))]
pub fn catalogue_lines() -> &'static [CatalogueLine]
    ensures { map line_of result.now ≡ lines }
{
    &LINES
}
