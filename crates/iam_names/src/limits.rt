// The limits of names.

/// The most bytes that the text of a name has.
pub const NAME_BYTES: usize = 256;

/// The most bytes of a label of a domain.
pub const LABEL_BYTES: usize = 63;

/// The most bytes before the `@` of an email.
pub const LOCAL_PART_BYTES: usize = 64;

/// The most bytes of the id of a customer.
pub const CUSTOMER_BYTES: usize = 32;

/// The most digits of the number of a node.
pub const NUMBER_DIGITS: usize = 19;

/// The last number that a node may have.
pub const LAST_NUMBER: u64 = 9_000_000_000_000_000_000;

/// The least bytes of the id of a project.
pub const PROJECT_ID_LEAST: usize = 6;

/// The most bytes of the id of a project.
pub const PROJECT_ID_BYTES: usize = 30;

/// The least bytes by which a folder is shown.
pub const FOLDER_DISPLAY_LEAST: usize = 3;

/// The least bytes by which a project is shown.
pub const PROJECT_DISPLAY_LEAST: usize = 4;

/// The most bytes by which a folder or a project is shown.
pub const DISPLAY_BYTES: usize = 30;

/// The most bytes of each part of a permission.
pub const PERMISSION_PART_BYTES: usize = 64;

/// How many parts a permission has.
pub const PERMISSION_PARTS: usize = 3;

/// The most bytes behind `roles/`.
pub const PREDEFINED_ROLE_BYTES: usize = 128;
