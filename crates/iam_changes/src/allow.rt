// The setting of an allow policy.
ghost use Rattle.std.specs.Prelude.{◌≡◌, ◌+◌, ◌<◌, ◌^◌, OnOk, OnErr};
ghost use Rattle.std.specs.Option.{option_map_or};
ghost use Rattle.iam_model.specs.Allow as allow_spec;
ghost use Rattle.iam_model.specs.Nodes as node_spec;

use iam_names::{NodeId, NodeName};
use iam_readings::{policy_after, resolve};
use iam_text::{List, OutOfMemory, put_row};
use iam_types::{Binding, Tables};
use std::alloc::Global;

fn set_policy(
    tables: &mut Tables,
    alloc: Global,
    node: NodeId,
    bindings: &List<Binding>,
) -> Result<(), OutOfMemory>
    requires { tables.old.org.changes + 1 < 2 ^ 64 }
    ensures ok { OnOk result (tables.new ≡ allow_spec.set_policy tables.old node bindings.now) }
    ensures err { OnErr result (tables.new ≡ tables.old) }
{
    let policy = policy_after(alloc, tables, node, bindings)?;
    put_row(&mut tables.allows, policy)?;
    tables.org.changes += 1;
    Ok(())
}

pub fn set_allow(
    tables: &mut Tables,
    alloc: Global,
    name: &NodeName,
    bindings: &List<Binding>,
) -> Result<(), OutOfMemory>
    requires { tables.old.org.changes + 1 < 2 ^ 64 }
    ensures ok { OnOk result (tables.new ≡ option_map_or (λ node. allow_spec.set_policy tables.old node bindings.now) (node_spec.resolve tables.old name.now) tables.old) }
    ensures err { OnErr result (tables.new ≡ tables.old) }
{
    match resolve(tables, name) {
        None => Ok(()),
        Some(node) => set_policy(tables, alloc, node, bindings),
    }
}
