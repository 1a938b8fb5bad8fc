// What the catalogue knows.
ghost use Rattle.std.specs.Prelude.{◌≡◌};
ghost use Rattle.std.specs.List.{list_any};
ghost use Rattle.iam_model.specs.Catalogue as catalogue_spec;
ghost use Rattle.iam_model.specs.Presets as preset_spec;
ghost use Rattle.iam_model.specs.Same as same_spec;

use crate::Catalogue;
use iam_names::{PermissionName, RoleName};
use iam_types::Preset;

/// Whether a permission is in the catalogue.
pub fn is_permission(catalogue: &Catalogue, permission: &PermissionName) -> bool
    ensures { result ≡ catalogue_spec.is_permission permission.now }
{
    catalogue
        .permissions()
        .iter()
        .any(|permit| permit.name.as_str() == permission.as_str())
}

/// Whether two names of roles are one.
pub fn same_role(a: &RoleName, b: &RoleName) -> bool
    ensures { result ≡ same_spec.same_role a.now b.now }
{
    *a == *b
}

fn any_preset(presets: &[Preset], role: &RoleName) -> bool
    ensures { result ≡ list_any (λ preset. same_spec.same_role preset.role role.now) presets.now }
{
    presets.iter().any(|preset| same_role(&preset.role, role))
}

/// Whether a role is a predefined one.
pub fn is_preset(catalogue: &Catalogue, role: &RoleName) -> bool
    ensures { result ≡ preset_spec.is_preset role.now }
{
    any_preset(catalogue.roles(), role)
}
