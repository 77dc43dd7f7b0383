//! Runs the cases of tables through the tools, over files and sinks in memory, and says which of them differ. The policy of a case is
//! also written back from its tree, and has to be itself.
//!
//! The words of the command line name the tables. Those after `--policies` name policies: each is a case, and is written back. Each case
//! that differs is printed, with what differs in it, and at last the number of those that do.
#![tactic(auto)]

mod failing;
mod playing;
mod rewriting;
mod sweeping;

use crate::playing::Contents;
use crate::rewriting::rewrite;
use crate::sweeping::case_differences;
use anyhow::{Context, Result};
use case_tables::{Case, Source, cases_of, edited};
use std::rt::Files;
use std::{env, fs};

/// What files are that words name.
#[derive(Clone, Copy)]
enum Kind {
    Tables,
    Policies,
}

/// How many cases there were, and how many of them differ.
#[derive(Clone, Copy)]
struct Counts {
    cases: usize,
    differing: usize,
}

impl Counts {
    // No case.
    fn new() -> Counts {
        Counts {
            cases: 0,
            differing: 0,
        }
    }

    // With one case more.
    fn and(self, differs: bool) -> Counts {
        Counts {
            cases: self.cases.saturating_add(1),
            differing: self.differing.saturating_add(usize::from(differs)),
        }
    }
}

// The bytes of a file.
fn bytes_of(rt: &(impl Files + AllocGlobal), name: &str) -> Result<Vec<u8>> {
    fs::read(rt, name).context(format_args!("reading {name}"))
}

// The bytes of a file with its edits.
fn edited_bytes(rt: &(impl Files + AllocGlobal), source: &Source) -> Result<Vec<u8>> {
    let name = source.file.as_str();
    let bytes = bytes_of(rt, name)?;
    edited(bytes, &source.edits).context(format_args!("editing {name}"))
}

// The bytes of a file that may not be there.
fn bytes_if(rt: &(impl Files + AllocGlobal), source: &Option<Source>) -> Result<Option<Vec<u8>>> {
    match source {
        Some(source) => Ok(Some(edited_bytes(rt, source)?)),
        None => Ok(None),
    }
}

// What differs in a case.
fn lines_of(rt: &(impl Files + AllocGlobal), case: &Case) -> Result<Vec<String>> {
    let policy = bytes_if(rt, &case.policy)?;
    let map = bytes_if(rt, &case.map)?;
    let list = bytes_if(rt, &case.list)?;
    let contents = Contents {
        policy: policy.as_deref(),
        map: map.as_deref(),
        list: list.as_deref(),
    };
    Ok(case_differences(rt.alloc(), case, contents)?)
}

// Takes the file that standard output has to be into the answer of the case, if there is one.
fn take_wanted(rt: &(impl Files + AllocGlobal), case: &mut Case) -> Result<()> {
    if let Some(out) = bytes_if(rt, &case.wanted_file)? {
        case.wanted.out = out;
    }
    Ok(())
}

// Tries a case, prints what differs, and answers whether anything does.
fn differs(rt: &(impl Files + Print + AllocGlobal), table: &str, case: &mut Case) -> Result<bool> {
    take_wanted(rt, case).context(format_args!("{table}, line {}", case.line))?;
    let lines = lines_of(rt, case).context(format_args!("{table}, line {}", case.line))?;
    for line in &lines {
        println!(rt; "{table}, line {}: {line}", case.line)?;
    }
    Ok(!lines.is_empty())
}

// The cases of a table.
fn table_of(rt: &(impl Files + AllocGlobal), table: &str) -> Result<Vec<Case>> {
    let text = fs::read_to_string(rt, table).context(format_args!("reading {table}"))?;
    cases_of(rt.alloc(), text.as_str()).context(format_args!("in {table}"))
}

// Tries the cases of a table, and counts them.
fn replay(rt: &(impl Files + Print + AllocGlobal), table: &str, counts: Counts) -> Result<Counts> {
    let mut counts = counts;
    let mut cases = table_of(rt, table)?;
    for case in &mut cases {
        counts = counts.and(differs(rt, table, case)?);
    }
    Ok(counts)
}

// Writes a policy back, prints what differs, and answers whether anything does.
fn rewrite_differs(rt: &(impl Files + Print + AllocGlobal), name: &str) -> Result<bool> {
    let bytes = bytes_of(rt, name)?;
    match rewrite(rt.alloc(), &bytes) {
        Ok(()) => Ok(false),
        Err(error) => {
            println!(rt; "{name}: {error}")?;
            Ok(true)
        }
    }
}

// Counts the cases of a file.
fn counted(
    rt: &(impl Files + Print + AllocGlobal),
    kind: Kind,
    name: &str,
    counts: Counts,
) -> Result<Counts> {
    match kind {
        Kind::Tables => replay(rt, name, counts),
        Kind::Policies => Ok(counts.and(rewrite_differs(rt, name)?)),
    }
}

fn main(rt: HostRuntime) -> Result<()> {
    let mut counts = Counts::new();
    let mut kind = Kind::Tables;
    for word in env::args(&rt)?.skip(1) {
        if word.as_str() == "--policies" {
            kind = Kind::Policies;
        } else {
            counts = counted(&rt, kind, word.as_str(), counts)?;
        }
    }
    println!(rt; "{} of {} cases differ", counts.differing, counts.cases)?;
    Ok(())
}
