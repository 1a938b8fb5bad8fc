// The route of a request.
use iam_text::{List, Text};

/// A line of the route table that is answered.
#[derive(Clone, Copy)]
pub enum Line {
    /// `POST /v3/{node}:testIamPermissions`.
    TestPermissions,
    /// `POST /v3/{node}:getIamPolicy`.
    ReadPolicy,
    /// `POST /v3/{node}:setIamPolicy`.
    SetPolicy,
    /// `GET /v3/{node}`.
    ReadNode,
    /// `GET /v3/folders?parent=`.
    ListFolders,
    /// `GET /v3/projects?parent=`.
    ListProjects,
    /// `POST /v3/folders`.
    CreateFolder,
    /// `POST /v3/projects`.
    CreateProject,
    /// `PATCH /v3/folders/N`.
    RenameFolder,
    /// `DELETE /v3/{node}`, of a folder or a project.
    DeleteNode,
    /// `POST /v3/{node}:undelete`, of a folder or a project.
    UndeleteNode,
}

/// A line of the route table, with the decoded parameters of the path and those of the query, names and values.
#[derive(Drop)]
pub struct Route {
    pub line: Line,
    pub parts: List<Text>,
    pub pairs: List<(Text, Text)>,
}
