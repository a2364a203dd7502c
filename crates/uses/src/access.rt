//! Reads two policies from standard input, and decides by their intersection who may do what.
//!
//! The first line is how many roles and how many rights there are, at most 10,000 of each. Four
//! parts follow, each with an empty line before it: what the first policy grants, what the second
//! one grants, what is denied although both grant it, and the questions. A line of the first three
//! is a role and a right that there are. A question is a role and the rights asked for. The output
//! line is `yes`, or `no` and the least of the rights asked for that the role lacks. It is `no`
//! alone where there is no such role or right.
//!
//! Each policy has exactly the grants of its lines, and exactly the lines of the third part are
//! denied. Where some line is not as said here, nothing is printed but one sentence on standard
//! error with the number of that line, and the status is 1.

ghost use Rattle.std.specs.Prelude.{◌≡◌, ◌∷◌, [], MatchOption, IfOk, IfErr, OnOk, length};
ghost use Rattle.uses.specs.Faults.{AreAll, IsFaultOfRow};
ghost use Rattle.uses.specs.AccessLines.{IsGrant, IsQuestion, HasGrants, IsWithout, IsAnswer};
ghost use Rattle.uses.specs.Policies.{HaveSameSize};

use crate::text::sets::set_of;
use crate::text::{Fault, Row, Wrong};
use policies::Policy;
use std::alloc::{AllocError, Global};
use std::fmt::Write;

mod policies;

// How many roles there may be, and how many rights.
const LIMIT: usize = 10_000;

/// What is printed for this text.
pub(crate) fn output(alloc: Global, text: &str) -> Result<String, Fault> {
    let rows = crate::text::rows(alloc, text)?;
    let Some((size, others)) = rows.split_first() else {
        let wanted = "the numbers of roles and rights are missing";
        return Err(Fault::Line(1, Wrong::Form(wanted)));
    };
    let (roles, rights) = sizes_of(size)?;
    let (first, second, denied, questions) = parts_of(others, rows.len() + 1)?;
    let both = both_of(alloc, roles, rights, first, second)?;
    answers_without(alloc, both, denied, questions)
}

// The results of a policy without what is denied.
fn answers_without(
    alloc: Global,
    mut policy: Policy,
    denied: &[Row],
    questions: &[Row],
) -> Result<String, Fault> {
    deny(&mut policy, denied)?;
    answers_of(alloc, &policy, questions)
}

// The policy of what both parts grant.
fn both_of(
    alloc: Global,
    roles: usize,
    rights: usize,
    first: &[Row],
    second: &[Row],
) -> Result<Policy, Fault> {
    let first = policy_of(alloc, roles, rights, first)?;
    let second = policy_of(alloc, roles, rights, second)?;
    Ok(first.both(alloc, &second)?)
}

// The policy that gives exactly what these rows grant. The error has the first row that is no
// grant.
fn policy_of(alloc: Global, roles: usize, rights: usize, rows: &[Row]) -> Result<Policy, Fault>
    ensures roles { IfOk result (λ policy. length policy.roles ≡ roles) }
    ensures rights { IfOk result (λ policy. policy.rights ≡ rights) }
    ensures grants { IfOk result (λ policy. HasGrants rows.now policy) }
    ensures each { OnOk result (AreAll (IsGrant roles rights) rows.now) }
    ensures fault { IfErr result (IsFaultOfRow (IsGrant roles rights) rows.now) }
{
    let mut policy = Policy::new(alloc, roles, rights)?;
    for row in rows {
        let Some((role, right)) = grant_of(&row.numbers, roles, rights) else {
            return Err(Fault::Line(row.line, wrong_grant(&row.numbers, roles, rights)));
        };
        policy.grant(role, right);
    }
    Ok(policy)
}

// What is wrong with the numbers of a row that is no grant.
fn wrong_grant(numbers: &[usize], roles: usize, rights: usize) -> Wrong {
    match *numbers {
        [role, _] if role >= roles => Wrong::NotBelow("the role", role, roles),
        [_, right] => Wrong::NotBelow("the right", right, rights),
        _ => Wrong::Form("there have to be a role and a right"),
    }
}

// The role and the right of a grant. `None` is returned exactly where the numbers are none.
fn grant_of(numbers: &[usize], roles: usize, rights: usize) -> Option<(usize, usize)>
    ensures { MatchOption result (¬ (IsGrant roles rights numbers.now))
        (λ grant. IsGrant roles rights numbers.now × (numbers.now ≡ grant.0 ∷ grant.1 ∷ [])) }
{
    match *numbers {
        [role, right] if role < roles && right < rights => Some((role, right)),
        _ => None,
    }
}

// Takes from the policy what these rows deny. The error has the first row that denies nothing.
fn deny(policy: &mut Policy, rows: &[Row]) -> Result<(), Fault>
    ensures size { HaveSameSize policy.old policy.new }
    ensures denied { OnOk result (IsWithout rows.now policy.old policy.new) }
    ensures each { OnOk result
        (AreAll (IsGrant (length policy.old.roles) policy.old.rights) rows.now) }
    ensures fault { IfErr result
        (IsFaultOfRow (IsGrant (length policy.old.roles) policy.old.rights) rows.now) }
{
    for row in rows {
        let Some((role, right)) = grant_of(&row.numbers, policy.roles(), policy.rights()) else {
            let wrong = wrong_grant(&row.numbers, policy.roles(), policy.rights());
            return Err(Fault::Line(row.line, wrong));
        };
        policy.revoke(role, right);
    }
    Ok(())
}

// What a policy says to a question.
#[derive(Clone, Copy, PartialEq, Eq, Debug)]
enum Answer {
    // The role has each of the rights.
    Allowed,
    // It lacks one, and this is the least.
    Lacking(usize),
    // There is no such role, or no such right.
    Unknown,
}

// How many roles and rights there are.
fn sizes_of(row: &Row) -> Result<(usize, usize), Fault> {
    match *row.numbers.as_slice() {
        [roles @ 0..=LIMIT, rights @ 0..=LIMIT] => Ok((roles, rights)),
        _ => Err(Fault::Line(row.line, wrong_sizes(&row.numbers))),
    }
}

// What is wrong with numbers that are no such sizes.
fn wrong_sizes(numbers: &[usize]) -> Wrong {
    match *numbers {
        [roles, _] if roles > LIMIT => Wrong::Above("the number of roles", roles, LIMIT),
        [_, rights] => Wrong::Above("the number of rights", rights, LIMIT),
        _ => Wrong::Form("there have to be two numbers, of roles and of rights"),
    }
}

// The rows of both policies, of the denials and of the questions. An empty row stands
// before each of these parts.
fn parts_of(rows: &[Row], line: usize) -> Result<(&[Row], &[Row], &[Row], &[Row]), Fault> {
    let mut parts = rows.splitn(5, |row| row.numbers.is_empty());
    if let Some([row, ..]) = parts.next() {
        return Err(Fault::Line(row.line, Wrong::Form("an empty line has to stand here")));
    }
    match (parts.next(), parts.next(), parts.next(), parts.next()) {
        (Some(first), Some(second), Some(denied), Some(questions)) => {
            Ok((first, second, denied, questions))
        }
        _ => Err(Fault::Line(line, Wrong::Form("a part is missing"))),
    }
}

// A line for each question. The error has the first row that has no role.
fn answers_of(alloc: Global, policy: &Policy, rows: &[Row]) -> Result<String, Fault>
    ensures each { OnOk result (AreAll IsQuestion rows.now) }
    ensures fault { IfErr result (IsFaultOfRow IsQuestion rows.now) }
{
    let mut answers = String::new(alloc);
    for row in rows {
        let Some((role, rights)) = row.numbers.split_first() else {
            return Err(Fault::Line(row.line, Wrong::Form("a question has to begin with a role")));
        };
        write_answer(&mut answers, answer_to(alloc, policy, *role, rights)?)?;
    }
    Ok(answers)
}

// Adds the line of a reply.
fn write_answer(answers: &mut String, answer: Answer) -> Result<(), AllocError> {
    match answer {
        Answer::Allowed => answers.push_str("yes\n"),
        Answer::Lacking(right) => writeln!(answers, "no {right}"),
        Answer::Unknown => answers.push_str("no\n"),
    }
}

// What the policy says to the question for these rights of the role.
fn answer_to(
    alloc: Global,
    policy: &Policy,
    role: usize,
    rights: &[usize],
) -> Result<Answer, AllocError>
    ensures { IfOk result (IsAnswer policy.now role rights.now) }
{
    if role >= policy.roles() {
        return Ok(Answer::Unknown);
    }
    let Some(asked) = set_of(alloc, policy.rights(), rights)? else {
        return Ok(Answer::Unknown);
    };
    let missing = policy.missing(role, &asked);
    prove!(policy.allows(role, &asked) == missing.is_none());
    match missing {
        Some(right) => Ok(Answer::Lacking(right)),
        None => Ok(Answer::Allowed),
    }
}
