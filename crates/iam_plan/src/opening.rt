// The opening that options say.
ghost use Rattle.std.specs.Prelude.{◌≡◌, ◌↔◌, None, IfOk, IfSome, IfNone, IsSome, IsErrOf, IsTrue, codes};
ghost use Rattle.std.specs.declared.option.Option.{Option as Opt};
ghost use Rattle.std.specs.Str.Parse.{digits_value};
ghost use Rattle.iam_names.specs.Domain.{IsDomain, IsCustomer};
ghost use Rattle.iam_plan.specs.Clap.{given_in};
ghost use Rattle.iam_plan.specs.Opening.{IsNumberWord, IsMemberWord, SaysOpening, SaysNone, SaysOpeningOrNone};
ghost use Rattle.iam_plan.specs.Values.{HasOption, IsFound};
ghost use Rattle.iam_types.specs.declared.tables.Opening.{Opening};

use crate::options::value;
use crate::plan::PlanStop;
use clap::ArgMatches;
use iam_names::{Member, is_customer, is_domain, read_digits};
use iam_text::{OutOfMemory, Text};
use iam_types::Opening;
use std::alloc::Global;

/// The last number that an organisation may have.
const LAST_NUMBER: u64 = 9_000_000_000_000_000_000;

// The number of an organisation.
fn read_number_word(text: &str) -> Option<u64>
    ensures form { IsSome result ↔ IsNumberWord text.now }
    ensures value { IfSome result (λ number. number ≡ digits_value 10 text.now) }
{
    let number = read_digits(text)?;
    if 1 <= number && number <= LAST_NUMBER {
        Some(number)
    } else {
        None
    }
}

fn number_said(matches: &ArgMatches) -> Option<u64>
    ensures some { IfSome result (λ n. HasOption (codes "org") (given_in matches.now) (λ t. IsNumberWord t × (n ≡ digits_value 10 t))) }
    ensures none { IfNone result (¬ HasOption (codes "org") (given_in matches.now) IsNumberWord) }
{
    match value(matches, "org") {
        Some(text) => read_number_word(text),
        None => None,
    }
}

fn domain_said<'a>(matches: &ArgMatches<'a>) -> Option<&'a str>
    ensures some { IfSome result (λ d. HasOption (codes "domain") (given_in matches.now) (λ t. IsDomain t × (d.now ≡ t))) }
    ensures none { IfNone result (¬ HasOption (codes "domain") (given_in matches.now) IsDomain) }
{
    match value(matches, "domain") {
        Some(text) => { if is_domain(text) { Some(text) } else { None } }
        None => None,
    }
}

fn customer_said<'a>(matches: &ArgMatches<'a>) -> Option<&'a str>
    ensures some { IfSome result (λ d. HasOption (codes "customer") (given_in matches.now) (λ t. IsCustomer t × (d.now ≡ t))) }
    ensures none { IfNone result (¬ HasOption (codes "customer") (given_in matches.now) IsCustomer) }
{
    match value(matches, "customer") {
        Some(text) => { if is_customer(text) { Some(text) } else { None } }
        None => None,
    }
}

fn admin_said(alloc: Global, matches: &ArgMatches) -> Result<Option<Member>, OutOfMemory>
    ensures { IfOk result (IsFound (λ member. HasOption (codes "admin") (given_in matches.now) (λ t. IsMemberWord t member))) }
{
    match value(matches, "admin") {
        Some(text) => Member::read(alloc, text),
        None => Ok(None),
    }
}

fn four_said(alloc: Global, matches: &ArgMatches) -> Result<Opening, PlanStop>
    ensures ok { IfOk result (λ o. SaysOpening (given_in matches.now) o) }
    ensures words { IsErrOf result PlanStop.Words → (o : Opening) → ¬ SaysOpening (given_in matches.now) o }
{
    let Some(number) = number_said(matches) else {
        return Err(PlanStop::Words);
    };
    let Some(domain) = domain_said(matches) else {
        return Err(PlanStop::Words);
    };
    let Some(customer) = customer_said(matches) else {
        return Err(PlanStop::Words);
    };
    let domain = Text::of(alloc, domain)?;
    let customer = Text::of(alloc, customer)?;
    let Some(admin) = admin_said(alloc, matches)? else {
        return Err(PlanStop::Words);
    };
    Ok(Opening {
        number,
        domain,
        customer,
        admin,
    })
}

fn is_absent(matches: &ArgMatches, name: &str) -> bool
    ensures { IsTrue result ↔ (given_in matches.now name.now ≡ None) }
{
    value(matches, name).is_none()
}

fn none_said(matches: &ArgMatches) -> bool
    ensures { IsTrue result ↔ SaysNone (given_in matches.now) }
{
    is_absent(matches, "org")
        && is_absent(matches, "domain")
        && is_absent(matches, "customer")
        && is_absent(matches, "admin")
}

/// The opening that all four options say, or none, where there are none of them.
#[tactic(auto, using(crate::proofs::Plans::unsaid_opening))]
pub fn opening_said(alloc: Global, matches: &ArgMatches) -> Result<Option<Opening>, PlanStop>
    ensures ok { IfOk result (SaysOpeningOrNone (given_in matches.now)) }
    ensures words { IsErrOf result PlanStop.Words → (opening : Opt Opening) → ¬ SaysOpeningOrNone (given_in matches.now) opening }
{
    if none_said(matches) {
        return Ok(None);
    }
    match four_said(alloc, matches) {
        Ok(opening) => Ok(Some(opening)),
        Err(stop) => Err(stop),
    }
}
