// What roles grant.
ghost use Rattle.std.specs.Prelude.{◌≡◌};
ghost use Rattle.iam_model.specs.Presets.{presets};
ghost use Rattle.iam_model.specs.Roles as spec;

use iam_catalogue::{Catalogue, same_role};
use iam_names::{PermissionName, RoleName};
use iam_types::{Preset, Role, Stage, Tables};

fn lists(permissions: &[PermissionName], permission: &PermissionName) -> bool
    ensures { result ≡ spec.lists permissions.now permission.now }
{
    permissions
        .iter()
        .any(|listed| listed.as_str() == permission.as_str())
}

fn is_disabled(stage: Stage) -> bool
    ensures { result ≡ spec.is_disabled stage }
{
    match stage {
        Stage::Disabled => true,
        Stage::Alpha | Stage::Beta | Stage::Ga | Stage::Deprecated | Stage::Eap => false,
    }
}

fn preset_grants(presets: &[Preset], role: &RoleName, permission: &PermissionName) -> bool
    ensures { result ≡ spec.preset_grants presets.now role.now permission.now }
{
    presets.iter().any(|preset| same_role(&preset.role, role)
        && lists(preset.permissions.as_slice(), permission))
}

fn custom_grants(roles: &[Role], role: &RoleName, permission: &PermissionName) -> bool
    ensures { result ≡ spec.custom_grants roles.now role.now permission.now }
{
    roles.iter().any(|custom| same_role(&custom.name, role)
        && !is_disabled(custom.stage)
        && custom.deleted.is_none()
        && lists(custom.permissions.as_slice(), permission))
}

/// Whether a role grants a permission.
pub fn grants(
    tables: &Tables,
    catalogue: &Catalogue,
    role: &RoleName,
    permission: &PermissionName,
) -> bool
    ensures { result ≡ spec.grants tables.now role.now permission.now }
{
    preset_grants(catalogue.roles(), role, permission)
        || custom_grants(tables.roles.as_slice(), role, permission)
}
