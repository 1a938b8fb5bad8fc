// What the tables tell of policies and roles.
ghost use Rattle.std.specs.Prelude.{◌≡◌};
ghost use Rattle.std.specs.Option.{option_copied};
ghost use Rattle.std.specs.List.{list_any};
ghost use Rattle.iam_model.specs.Policies as policy_spec;
ghost use Rattle.iam_model.specs.Same as same_spec;

use iam_catalogue::{Catalogue, is_preset, same_role};
use iam_names::{NodeId, RoleName};
use iam_types::{AllowPolicy, Binding, Role, Tables};

/// The policy of a node, if one was set.
pub fn policy_of(tables: &Tables, node: NodeId) -> Option<&AllowPolicy>
    ensures { option_copied result ≡ policy_spec.policy_of tables.now.allows node }
{
    tables
        .allows
        .as_slice()
        .iter()
        .find(|policy| policy.node == node)
}

/// The bindings of a node's policy; a policy that was never set has none.
pub fn bindings_at(tables: &Tables, node: NodeId) -> &[Binding]
    ensures { result.now ≡ policy_spec.bindings_at tables.now node }
{
    match policy_of(tables, node) {
        Some(policy) => policy.bindings.as_slice(),
        None => &[],
    }
}

/// The number of a node's policy, which is 0 where none was set.
pub fn etag_of(tables: &Tables, node: NodeId) -> u64
    ensures { result ≡ policy_spec.etag_of tables.now node }
{
    match policy_of(tables, node) {
        Some(policy) => policy.set,
        None => 0,
    }
}

fn any_custom(roles: &[Role], role: &RoleName) -> bool
    ensures { result ≡ list_any (λ custom. same_spec.same_role custom.name role.now) roles.now }
{
    roles.iter().any(|custom| same_role(&custom.name, role))
}

/// Whether a role is a predefined one, or a custom one of the tables.
pub fn is_role(tables: &Tables, catalogue: &Catalogue, role: &RoleName) -> bool
    ensures { result ≡ policy_spec.is_role tables.now role.now }
{
    is_preset(catalogue, role) || any_custom(tables.roles.as_slice(), role)
}
