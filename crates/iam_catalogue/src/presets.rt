// The predefined roles.
ghost use Rattle.std.specs.Prelude.{◌≡◌, ◌++◌, IfOk, OnOk, map, true};
ghost use Rattle.std.specs.List.{All, flat_map, list_any};
ghost use Rattle.std.specs.Str.{bytes_eq};
ghost use Rattle.std.specs.Option.{option_map, option_map_or};
ghost use Rattle.iam_model.specs.Presets as spec;
ghost use Rattle.iam_model.specs.Presets.{is_absent_or, is_empty_or_has, listed_of, preset_at};
ghost use Rattle.iam_catalogue.specs.Lines.{line_of, listed_at, pattern_of, preset_line_of, IsNamed};
ghost use Rattle.iam_names.specs.Permission.{IsPermission};
ghost use Rattle.iam_model.specs.Catalogue.{permission_of};

use crate::lines::CatalogueLine;
use crate::permits::permission;
use crate::preset_lines::{PermitPattern, RoleLine};
use iam_names::{PermissionName, RoleName};
use iam_text::{List, OutOfMemory, Text};
use iam_types::{Level, Preset};
use std::alloc::Global;

fn same_level(a: Level, b: Level) -> bool
    ensures { result ≡ spec.same_level a b }
{
    a == b
}

fn same_text(a: &str, b: &str) -> bool
    ensures { result ≡ bytes_eq a.now b.now }
{
    a == b
}

fn absent_or(given: Option<&str>, text: &str) -> bool
    ensures { result ≡ is_absent_or (option_map (λ only. only.now) given.entry) text.now }
{
    match given {
        None => true,
        Some(only) => same_text(only, text),
    }
}

fn has(verbs: &[&str], verb: &str) -> bool
    ensures { result ≡ list_any (λ only. bytes_eq only.now verb.now) verbs.now }
{
    verbs.iter().any(|only| *only == verb)
}

#[tactic(auto, using(crate::proofs::Fitting::no_verbs, crate::proofs::Fitting::has_verb))]
fn empty_or_has(verbs: &[&str], verb: &str) -> bool
    ensures { result ≡ is_empty_or_has (map (λ only. only.now) verbs.now) verb.now }
{
    if verbs.is_empty() {
        true
    } else {
        has(verbs, verb)
    }
}

fn level_fits(given: Option<Level>, level: Level) -> bool
    ensures { result ≡ option_map_or (λ only. spec.same_level only level) given true }
{
    match given {
        None => true,
        Some(only) => same_level(only, level),
    }
}

fn fits(line: &CatalogueLine, verb: &str, pattern: &PermitPattern) -> bool
    ensures { result ≡ spec.fits (line_of line.now) verb.now (pattern_of pattern.now) }
{
    absent_or(pattern.service, line.service)
        && absent_or(pattern.resource, line.resource)
        && empty_or_has(pattern.verbs, verb)
        && level_fits(pattern.level, line.level)
}

fn any_fits(line: &CatalogueLine, verb: &str, patterns: &[PermitPattern]) -> bool
    ensures { result ≡ list_any (λ pattern. spec.fits (line_of line.now) verb.now (pattern_of pattern)) patterns.now }
{
    patterns.iter().any(|pattern| fits(line, verb, pattern))
}

fn fits_any(line: &CatalogueLine, verb: &str, patterns: &[PermitPattern]) -> bool
    ensures { result ≡ list_any (spec.fits (line_of line.now) verb.now) (map pattern_of patterns.now) }
{
    any_fits(line, verb, patterns)
}

// Puts the permission of a verb at the end, where some pattern fits it.
fn push_if_listed(
    alloc: Global,
    permissions: &mut List<PermissionName>,
    patterns: &[PermitPattern],
    line: &CatalogueLine,
    verb: &str,
) -> Result<(), OutOfMemory>
    requires { IsPermission (permission_of (line_of line.now) verb.now) }
    ensures { OnOk result (permissions.new ≡ permissions.old ++ listed_at (map pattern_of patterns.now) (line_of line.now) verb.now) }
{
    if fits_any(line, verb, patterns) {
        permissions.push(permission(alloc, line, verb)?)
    } else {
        Ok(())
    }
}

fn push_listed(
    alloc: Global,
    permissions: &mut List<PermissionName>,
    patterns: &[PermitPattern],
    line: &CatalogueLine,
) -> Result<(), OutOfMemory>
    requires { IsNamed (line_of line.now) }
    ensures { OnOk result (permissions.new ≡ permissions.old ++ listed_of (map pattern_of patterns.now) (line_of line.now)) }
{
    for verb in line.verbs {
        push_if_listed(alloc, permissions, patterns, line, verb)?;
    }
    Ok(())
}

fn listed_in(
    alloc: Global,
    patterns: &[PermitPattern],
    lines: &[CatalogueLine],
) -> Result<List<PermissionName>, OutOfMemory>
    requires { All IsNamed (map line_of lines.now) }
    ensures { IfOk result (λ permissions. permissions ≡ flat_map (listed_of (map pattern_of patterns.now)) (map line_of lines.now)) }
{
    let mut permissions = List::new(alloc);
    for line in lines {
        push_listed(alloc, &mut permissions, patterns, line)?;
    }
    Ok(permissions)
}

fn preset(alloc: Global, role: &RoleLine, lines: &[CatalogueLine]) -> Result<Preset, OutOfMemory>
    requires { All IsNamed (map line_of lines.now) }
    ensures { IfOk result (λ preset. preset ≡ preset_at (map line_of lines.now) (preset_line_of role.now)) }
{
    let name = Text::of(alloc, role.id)?;
    let permissions = listed_in(alloc, role.patterns, lines)?;
    Ok(Preset {
        role: RoleName::Predefined(name),
        permissions,
    })
}

/// The predefined roles of these lines, over the permissions of those.
pub fn presets_in(
    alloc: Global,
    roles: &[RoleLine],
    lines: &[CatalogueLine],
) -> Result<List<Preset>, OutOfMemory>
    requires { All IsNamed (map line_of lines.now) }
    ensures { IfOk result (λ presets. presets ≡ map (preset_at (map line_of lines.now)) (map preset_line_of roles.now)) }
{
    let mut presets = List::new(alloc);
    for role in roles {
        presets.push(preset(alloc, role, lines)?)?;
    }
    Ok(presets)
}
