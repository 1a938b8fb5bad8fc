// What an organisation starts from.
ghost use Rattle.std.specs.Prelude.{◌≡◌, IfOk};
ghost use Rattle.iam_model.specs.Opening as spec;

use iam_names::{NodeId, NodeKind, RoleName, copy_member};
use iam_text::{List, OutOfMemory, Text};
use iam_types::{AllowPolicy, Binding, Opening, Org, Tables};
use std::alloc::Global;

fn copy_text(alloc: Global, text: &Text) -> Result<Text, OutOfMemory>
    ensures { IfOk result (λ copy. copy ≡ text.now) }
{
    Text::of(alloc, text.as_str())
}

fn opening_org(alloc: Global, opening: &Opening) -> Result<Org, OutOfMemory>
    ensures { IfOk result (λ org. org ≡ (spec.opening_tables opening.now).org) }
{
    Ok(Org {
        number: opening.number,
        domain: copy_text(alloc, &opening.domain)?,
        customer: copy_text(alloc, &opening.customer)?,
        next: 1,
        changes: 1,
    })
}

fn opening_policies(alloc: Global, opening: &Opening) -> Result<List<AllowPolicy>, OutOfMemory>
    ensures { IfOk result (λ allows. allows ≡ (spec.opening_tables opening.now).allows) }
{
    let mut members = List::new(alloc);
    members.push(copy_member(&opening.admin)?)?;
    let role = RoleName::Predefined(Text::of(alloc, "resourcemanager.organizationAdmin")?);
    let mut bindings = List::new(alloc);
    bindings.push(Binding {
        role,
        members,
        condition: None,
    })?;
    let mut allows = List::new(alloc);
    allows.push(AllowPolicy {
        node: NodeId {
            kind: NodeKind::Organization,
            number: opening.number,
        },
        bindings,
        set: 1,
    })?;
    Ok(allows)
}

/// The tables that an organisation starts from.
pub fn opening_tables(alloc: Global, opening: &Opening) -> Result<Tables, OutOfMemory>
    ensures { IfOk result (λ tables. tables ≡ spec.opening_tables opening.now) }
{
    Ok(Tables {
        org: opening_org(alloc, opening)?,
        nodes: List::new(alloc),
        keys: List::new(alloc),
        values: List::new(alloc),
        tags: List::new(alloc),
        groups: List::new(alloc),
        edges: List::new(alloc),
        roles: List::new(alloc),
        allows: opening_policies(alloc, opening)?,
        denies: List::new(alloc),
        boundaries: List::new(alloc),
        bounds: List::new(alloc),
    })
}
