// Sweeps: a case is run many times, and one thing goes wrong in each run but the last.
//
// Each run in which something goes wrong has to be refused for it, with nothing written but what may be. The last one has to give the
// case's answer.
use crate::failing::Failing;
use crate::playing::{Contents, play};
use crate::rewriting::rewrite;
use case_tables::{Answer, Case, Outside, Sweep, differences, escaped};
use std::alloc::{AllocError, Global};

// No run makes so many calls.
const MOST_CALLS: u64 = 100_000;

/// What differs in a case: in its one run, or in the first run of its sweep that does, and where its policy is written back.
pub fn case_differences(
    alloc: Global,
    case: &Case,
    contents: Contents<'_>,
) -> Result<Vec<String>, AllocError> {
    let mut lines = runs_differences(alloc, case, contents)?;
    if let Some(policy) = contents.policy {
        push_rewrite(alloc, policy, &mut lines)?;
    }
    Ok(lines)
}

// Says what differs where a policy is written back.
fn push_rewrite(alloc: Global, policy: &[u8], lines: &mut Vec<String>) -> Result<(), AllocError> {
    if let Err(error) = rewrite(alloc, policy) {
        lines.push(format!(in alloc; "{error}")?)?;
    }
    Ok(())
}

// What differs in the runs of a case.
fn runs_differences(
    alloc: Global,
    case: &Case,
    contents: Contents<'_>,
) -> Result<Vec<String>, AllocError> {
    match case.sweep {
        None => run_differences(alloc, case, contents, &case.outside),
        Some(Sweep::Cut) => cut_differences(alloc, case, contents),
        Some(Sweep::Files) => {
            let parts = [Failing::Policy, Failing::Map, Failing::List];
            call_differences(alloc, case, contents, &parts)
        }
        Some(Sweep::Patterns) => call_differences(alloc, case, contents, &[Failing::Patterns]),
        Some(Sweep::Out) => call_differences(alloc, case, contents, &[Failing::Out]),
        Some(Sweep::Err) => call_differences(alloc, case, contents, &[Failing::Err]),
    }
}

// What differs in a run that has to give the case's answer.
fn run_differences(
    alloc: Global,
    case: &Case,
    contents: Contents<'_>,
    outside: &Outside,
) -> Result<Vec<String>, AllocError> {
    let got = play(alloc, case, contents, outside)?;
    differences(alloc, &case.wanted, &got)
}

// What differs where the policy is cut, shorter ones first.
fn cut_differences(
    alloc: Global,
    case: &Case,
    contents: Contents<'_>,
) -> Result<Vec<String>, AllocError> {
    let policy = contents.policy.unwrap_or(&[]);
    for length in 0..policy.len() {
        let cut = Contents {
            policy: Some(&policy[..length]),
            map: contents.map,
            list: contents.list,
        };
        let got = play(alloc, case, cut, &case.outside)?;
        if !is_short(&got) {
            return refusal_line(alloc, "length", length as u64, &got);
        }
    }
    run_differences(alloc, case, contents, &case.outside)
}

// Whether a policy was refused since it is cut.
fn is_short(got: &Answer) -> bool {
    got.code == 1
        && got.out.is_empty()
        && got.err.starts_with(b"setools: policy: place ")
        && got.err.ends_with(b": Short\n")
}

// What differs where one call fails in each run, the first one first.
fn call_differences(
    alloc: Global,
    case: &Case,
    contents: Contents<'_>,
    parts: &[Failing],
) -> Result<Vec<String>, AllocError> {
    let mut outside = case.outside;
    let mut call = 1u64;
    for part in parts {
        let next = first_other(alloc, case, contents, *part, call)?;
        outside = part.failing(&case.outside, next);
        if next < call.saturating_add(part.least_calls(case, contents)) {
            let got = play(alloc, case, contents, &outside)?;
            return refusal_line(alloc, "call", next, &got);
        }
        call = next;
    }
    run_differences(alloc, case, contents, &outside)
}

// The first call, from one on, for which the run is not refused as it has to be where that call fails.
fn first_other(
    alloc: Global,
    case: &Case,
    contents: Contents<'_>,
    part: Failing,
    first: u64,
) -> Result<u64, AllocError> {
    for call in first..MOST_CALLS {
        let got = play(alloc, case, contents, &part.failing(&case.outside, call))?;
        if !part.is_refused(case, call, &got) {
            return Ok(call);
        }
    }
    Ok(MOST_CALLS)
}

// Says that a run was not refused as it has to be.
fn refusal_line(
    alloc: Global,
    what: &str,
    number: u64,
    got: &Answer,
) -> Result<Vec<String>, AllocError> {
    let mut lines = Vec::new(alloc);
    let err = escaped(alloc, &got.err)?;
    lines.push(format!(in alloc;
        "{what} {number}: code {}, {} bytes out and \"{err}\"",
        got.code,
        got.out.len()
    )?)?;
    Ok(lines)
}
