// Whose access to what is asked.
ghost use Rattle.std.specs.Prelude.{◌≡◌, ◌≢◌, ◌↔◌, ◌++◌, List as Bytes, ℕ, IfOk, IfSome, IfNone, IsTrue, codes};
ghost use Rattle.iam_names.specs.Caller.{IsCaller, caller_text};
ghost use Rattle.iam_plan.specs.Access.{IsServiceDomain, StandsForText, IsEmailOf, IsPrincipal, IsResource};
ghost use Rattle.iam_plan.specs.Clap.{given_in};
ghost use Rattle.iam_plan.specs.Values.{HasOption, IsFound};

use crate::options::value;
use clap::ArgMatches;
use iam_names::{Caller, Email, NodeName};
use iam_text::{OutOfMemory, Text};
use std::alloc::Global;

/// What stands behind a prefix.
fn behind<'a>(prefix: &str, text: &'a str) -> Option<&'a str>
    ensures some { IfSome result (λ rest. text.now ≡ prefix.now ++ rest.now) }
    ensures none { IfNone result ((rest : Bytes ℕ) → text.now ≢ prefix.now ++ rest) }
{
    text.strip_prefix(prefix)
}

fn is_service_domain(domain: &str) -> bool
    ensures { IsTrue result ↔ IsServiceDomain domain.now }
{
    domain.strip_suffix(".gserviceaccount.com").is_some()
}

fn prefixed(alloc: Global, prefix: &str, rest: &str) -> Result<Text, OutOfMemory>
    ensures { IfOk result (λ text. text ≡ prefix.now ++ rest.now) }
{
    let mut text = String::from_str(alloc, prefix)?;
    text.push_str(rest)?;
    Ok(Text::from(text))
}

// The text of a caller that an email stands for.
fn text_of_email(alloc: Global, email: &Email) -> Result<Text, OutOfMemory>
    ensures { IfOk result (λ text. StandsForText email.now text) }
{
    if is_service_domain(email.domain()) {
        prefixed(alloc, "serviceAccount:", email.as_str())
    } else {
        prefixed(alloc, "user:", email.as_str())
    }
}

fn caller_of_email(alloc: Global, email: &Email) -> Result<Option<Caller>, OutOfMemory>
    ensures { IfOk result (IsFound (λ caller. IsCaller caller × StandsForText email.now (caller_text caller))) }
{
    let text = text_of_email(alloc, email)?;
    Caller::read(alloc, text.as_str())
}

fn read_email_of(alloc: Global, text: &str) -> Result<Option<Caller>, OutOfMemory>
    ensures { IfOk result (IsFound (λ caller. IsCaller caller × IsEmailOf text.now caller)) }
{
    match Email::read(alloc, text)? {
        Some(email) => caller_of_email(alloc, &email),
        None => Ok(None),
    }
}

fn read_principal(alloc: Global, text: &str) -> Result<Option<Caller>, OutOfMemory>
    ensures { IfOk result (IsFound (λ caller. IsPrincipal text.now caller)) }
{
    match Caller::read(alloc, text)? {
        Some(caller) => Ok(Some(caller)),
        None => read_email_of(alloc, text),
    }
}

fn read_resource(alloc: Global, text: &str) -> Result<Option<NodeName>, OutOfMemory>
    ensures { IfOk result (IsFound (λ node. IsResource text.now node)) }
{
    match behind("//cloudresourcemanager.googleapis.com/", text) {
        Some(name) => NodeName::read(alloc, name),
        None => Ok(None),
    }
}

/// The caller whose access is asked.
pub fn principal_said(alloc: Global, matches: &ArgMatches) -> Result<Option<Caller>, OutOfMemory>
    ensures { IfOk result (IsFound (λ caller. HasOption (codes "principal") (given_in matches.now) (λ t. IsPrincipal t caller))) }
{
    match value(matches, "principal") {
        Some(text) => read_principal(alloc, text),
        None => Ok(None),
    }
}

/// The node to which access is asked.
pub fn resource_said(alloc: Global, matches: &ArgMatches) -> Result<Option<NodeName>, OutOfMemory>
    ensures { IfOk result (IsFound (λ node. HasOption (codes "resource") (given_in matches.now) (λ t. IsResource t node))) }
{
    match value(matches, "resource") {
        Some(text) => read_resource(alloc, text),
        None => Ok(None),
    }
}
