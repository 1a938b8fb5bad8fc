// The numbers of the limits.
ghost use Rattle.std.specs.Prelude.{◌≡◌};
ghost use Rattle.iam_model.specs.Limits as spec;

use iam_types::LimitName;

/// The most that a limit lets stand.
pub fn limit_of(which: LimitName) -> u64
    ensures { result ≡ spec.limit_of which }
{
    match which {
        LimitName::PolicyMembers => 1_500,
        LimitName::PolicyGroups => 250,
        LimitName::SameRoleConditions => 20,
        LimitName::Operators => 12,
        LimitName::DenyRules => 500,
        LimitName::BoundaryRules => 500,
        LimitName::BoundaryResources => 500,
        LimitName::SetBindings => 10,
        LimitName::TagBindings => 50,
        LimitName::ChildFolders => 300,
        LimitName::PermissionsAsked => 100,
        LimitName::RolePermissions => 100,
        LimitName::Nodes => 10_000,
        LimitName::Tags => 1_000,
        LimitName::Groups => 1_000,
        LimitName::Edges => 20_000,
        LimitName::Roles => 2_000,
        LimitName::Members => 100_000,
        LimitName::DenyEntries => 50_000,
        LimitName::Boundaries => 1_000,
        LimitName::Bounds => 2_000,
        LimitName::ConditionBytes => 16_777_216,
        LimitName::Changes => 1_000_000_000_000_000,
    }
}
