// The catalogue.
ghost use Rattle.std.specs.Prelude.{◌≡◌, IfOk};
ghost use Rattle.iam_model.specs.Catalogue.{permits};
ghost use Rattle.iam_model.specs.Presets.{presets};

use crate::lines::catalogue_lines;
use crate::permits::permits_in;
use crate::preset_lines::role_lines;
use crate::presets::presets_in;
use iam_text::{List, OutOfMemory};
use iam_types::{Permit, Preset};
use std::alloc::Global;
use std::marker::Model;

/// The permissions and the predefined roles. Each value holds the whole table.
#[derive(Drop)]
pub struct Catalogue {
    permissions: List<Permit>,
    roles: List<Preset>,
}

impl Model for Catalogue {
    ghost use Rattle.std.specs.Prelude.{◌≡◌};
    ghost use Rattle.iam_model.specs.Catalogue.{permits};
    ghost use Rattle.iam_model.specs.Presets.{presets};

    ghost Value = { Unit {0} };

    ghost view = { λ _. tt };

    ghost invariant = { λ c. (c.permissions ≡ permits) × (c.roles ≡ presets) };
}

fn all_permits(alloc: Global) -> Result<List<Permit>, OutOfMemory>
    ensures { IfOk result (λ listed. listed ≡ permits) }
{
    let listed = permits_in(alloc, catalogue_lines())?;
    Ok(listed)
}

fn all_presets(alloc: Global) -> Result<List<Preset>, OutOfMemory>
    ensures { IfOk result (λ listed. listed ≡ presets) }
{
    let listed = presets_in(alloc, role_lines(), catalogue_lines())?;
    Ok(listed)
}

impl Catalogue {
    pub fn built_in(alloc: Global) -> Result<Catalogue, OutOfMemory> {
        Ok(Catalogue {
            permissions: all_permits(alloc)?,
            roles: all_presets(alloc)?,
        })
    }

    /// The permissions, in the order of the table.
    pub fn permissions(&self) -> &[Permit]
        ensures { result.now ≡ permits }
    {
        self.permissions.as_slice()
    }

    /// The predefined roles, each with its permissions in their order.
    pub fn roles(&self) -> &[Preset]
        ensures { result.now ≡ presets }
    {
        self.roles.as_slice()
    }
}
