// The route table, a path after the other.
use iam_json::Line;
use iam_names::NodeKind;

/// A segment of a path.
pub enum Piece {
    /// It stands as it is.
    Fixed(&'static str),
    /// A parameter, which is percent-decoded: what follows the collection in the name of a node.
    NodeIn(NodeKind),
}

/// A line of the table: its method, and the verb behind its path, if it has one.
pub struct PathLine {
    pub line: Line,
    pub method: &'static str,
    pub verb: Option<&'static str>,
}

/// A path, and its lines.
pub struct TablePath {
    pub pieces: &'static [Piece],
    pub lines: &'static [PathLine],
}

const V3: Piece = Piece::Fixed("v3");

const ORGANIZATIONS: Piece = Piece::Fixed("organizations");

const FOLDERS: Piece = Piece::Fixed("folders");

const PROJECTS: Piece = Piece::Fixed("projects");

const TEST_PERMISSIONS: PathLine = PathLine {
    line: Line::TestPermissions,
    method: "POST",
    verb: Some("testIamPermissions"),
};

const READ_POLICY: PathLine = PathLine {
    line: Line::ReadPolicy,
    method: "POST",
    verb: Some("getIamPolicy"),
};

const SET_POLICY: PathLine = PathLine {
    line: Line::SetPolicy,
    method: "POST",
    verb: Some("setIamPolicy"),
};

const READ_NODE: PathLine = PathLine {
    line: Line::ReadNode,
    method: "GET",
    verb: None,
};

const RENAME_FOLDER: PathLine = PathLine {
    line: Line::RenameFolder,
    method: "PATCH",
    verb: None,
};

const DELETE_NODE: PathLine = PathLine {
    line: Line::DeleteNode,
    method: "DELETE",
    verb: None,
};

const UNDELETE_NODE: PathLine = PathLine {
    line: Line::UndeleteNode,
    method: "POST",
    verb: Some("undelete"),
};

/// The paths of the table, each once.
pub static PATHS: [TablePath; 5] = [
    TablePath {
        pieces: &[V3, ORGANIZATIONS, Piece::NodeIn(NodeKind::Organization)],
        lines: &[TEST_PERMISSIONS, READ_POLICY, SET_POLICY, READ_NODE],
    },
    TablePath {
        pieces: &[V3, FOLDERS, Piece::NodeIn(NodeKind::Folder)],
        lines: &[
            TEST_PERMISSIONS,
            READ_POLICY,
            SET_POLICY,
            READ_NODE,
            RENAME_FOLDER,
            DELETE_NODE,
            UNDELETE_NODE,
        ],
    },
    TablePath {
        pieces: &[V3, PROJECTS, Piece::NodeIn(NodeKind::Project)],
        lines: &[
            TEST_PERMISSIONS,
            READ_POLICY,
            SET_POLICY,
            READ_NODE,
            DELETE_NODE,
            UNDELETE_NODE,
        ],
    },
    TablePath {
        pieces: &[V3, FOLDERS],
        lines: &[
            PathLine {
                line: Line::ListFolders,
                method: "GET",
                verb: None,
            },
            PathLine {
                line: Line::CreateFolder,
                method: "POST",
                verb: None,
            },
        ],
    },
    TablePath {
        pieces: &[V3, PROJECTS],
        lines: &[
            PathLine {
                line: Line::ListProjects,
                method: "GET",
                verb: None,
            },
            PathLine {
                line: Line::CreateProject,
                method: "POST",
                verb: None,
            },
        ],
    },
];
