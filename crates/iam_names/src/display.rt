// The names by which folders and projects are shown.
ghost use Rattle.std.specs.Prelude.{◌≡◌, ◌↔◌, IsTrue};
ghost use Rattle.iam_names.specs.Display.{IsFolderDisplay, IsProjectDisplay};

use crate::bytes::{all_folder_display_bytes, all_project_display_bytes, is_letter_or_digit};
use crate::limits::{DISPLAY_BYTES, FOLDER_DISPLAY_LEAST, PROJECT_DISPLAY_LEAST};

/// Whether a folder may be shown by a text.
pub fn is_folder_display(text: &str) -> bool
    ensures { IsTrue result ↔ IsFolderDisplay text.now }
{
    let bytes = text.as_bytes();
    if bytes.len() < FOLDER_DISPLAY_LEAST || bytes.len() > DISPLAY_BYTES {
        return false;
    }
    if !is_letter_or_digit(bytes[0]) || !is_letter_or_digit(bytes[bytes.len() - 1]) {
        return false;
    }
    all_folder_display_bytes(bytes)
}

/// Whether a project may be shown by a text.
pub fn is_project_display(text: &str) -> bool
    ensures { IsTrue result ↔ IsProjectDisplay text.now }
{
    let bytes = text.as_bytes();
    if bytes.len() < PROJECT_DISPLAY_LEAST || bytes.len() > DISPLAY_BYTES {
        return false;
    }
    all_project_display_bytes(bytes)
}
