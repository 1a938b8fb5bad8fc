// What words of the command line say.
use crate::lines::Lines;
use crate::outside::words_of;
use iam_names::{Caller, NodeName};
use iam_plan::{Plan, PlanStop, plan_of};
use iam_text::{List, OutOfMemory, Text, let_go};
use iam_types::Opening;
use std::alloc::Global;

fn file_of(db: &Option<Text>) -> &str {
    match db {
        Some(file) => file.as_str(),
        None => "-",
    }
}

fn apply_text(alloc: Global, file: &str, opening: &Opening) -> Result<String, OutOfMemory> {
    let (domain, customer) = (opening.domain.as_str(), opening.customer.as_str());
    let admin = opening.admin.text(alloc)?;
    let (number, admin) = (opening.number, admin.as_str());
    Ok(format!(in alloc; "apply {file} {number} {domain} {customer} {admin}")?)
}

fn ask_text(
    alloc: Global,
    file: &str,
    principal: &Caller,
    resource: &NodeName,
    permission: &str,
) -> Result<String, OutOfMemory> {
    let principal = principal.text(alloc)?;
    let resource = resource.text(alloc)?;
    let (principal, resource) = (principal.as_str(), resource.as_str());
    Ok(format!(in alloc; "ask {file} {principal} {resource} {permission}")?)
}

// Its command, its file and the rest, each `-` where it isn't given.
fn plan_text(alloc: Global, plan: &Plan) -> Result<String, OutOfMemory> {
    match plan {
        Plan::Apply { db, opening } => match opening {
            Some(opening) => apply_text(alloc, file_of(db), opening),
            None => {
                let file = file_of(db);
                Ok(format!(in alloc; "apply {file} -")?)
            }
        },
        Plan::Ask {
            db,
            principal,
            resource,
            permission,
        } => ask_text(alloc, file_of(db), principal, resource, permission.as_str()),
    }
}

// A call of its own, so that what `plan_of` promises is not carried along by the rest.
fn plan_in(alloc: Global, words: &[Text]) -> Result<Plan, PlanStop> {
    plan_of(alloc, words)
}

fn text_of(alloc: Global, words: &[Text]) -> Result<String, OutOfMemory> {
    match plan_in(alloc, words) {
        Ok(plan) => {
            let text = plan_text(alloc, &plan);
            let_go(plan);
            text
        }
        Err(PlanStop::Words) => Ok(String::from_str(alloc, "no")?),
        Err(PlanStop::OutOfMemory) => Err(OutOfMemory),
    }
}

/// `words WORDS` and `no-words`: the plan that the words say, or `no` where they are of none of the forms.
pub fn plan_line(
    alloc: Global,
    kind: &str,
    line: &str,
    lines: &mut Lines,
) -> Result<(), OutOfMemory> {
    let words = if kind == "words" {
        words_of(alloc, line)?
    } else {
        List::new(alloc)
    };
    let text = text_of(alloc, words.as_slice())?;
    lines.push(text.as_str())
}
