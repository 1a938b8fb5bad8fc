// The versions of policies.
ghost use Rattle.std.specs.Prelude.{◌≡◌};
ghost use Rattle.iam_model.specs.Shared as spec;

/// Whether policies have this version.
pub fn is_version(version: u64) -> bool
    ensures { result ≡ spec.is_version version }
{
    version == 0 || version == 1 || version == 3
}
