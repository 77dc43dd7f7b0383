// A case is played: its words through the tools, over files, patterns and sinks in memory.
ghost use Rattle.std.specs.Prelude.{IfOk};
ghost use Rattle.se_outside.specs.Outside.{NoneAsked};
ghost use Rattle.se_outside.specs.MemFiles.{mem_state};

use case_tables::{Answer, Case, Orders, Outside};
use se_outside::{MemFiles, MemPatterns, MemSink};
use se_tools::run;
use std::alloc::{AllocError, Global};

/// What a case's policy, its map and its checklist hold, where they are there.
#[derive(Clone, Copy)]
pub struct Contents<'a> {
    pub policy: Option<&'a [u8]>,
    pub map: Option<&'a [u8]>,
    pub list: Option<&'a [u8]>,
}

/// What the run of a case gives.
pub fn play(
    alloc: Global,
    case: &Case,
    contents: Contents<'_>,
    outside: &Outside,
) -> Result<Answer, AllocError> {
    let mut files = files_of(alloc, case.name.as_str(), contents, &outside.files)?;
    let mut patterns = patterns_of(alloc, outside.patterns)?;
    let mut out = sink_of(alloc, &outside.out)?;
    let mut err = sink_of(alloc, &outside.err)?;
    let status = run(
        alloc,
        &case.words,
        &mut files,
        &mut patterns,
        &mut out,
        &mut err,
    );
    answer_of(alloc, status.code(), &out, &err)
}

// A policy of that name, a map and a checklist, where they are there, in files that are told these orders.
fn files_of(
    alloc: Global,
    name: &str,
    contents: Contents<'_>,
    orders: &Orders,
) -> Result<MemFiles, AllocError>
    ensures { IfOk result (λ files. NoneAsked (mem_state files)) }
{
    let mut files = MemFiles::new(alloc);
    add_if(&mut files, name, contents.policy)?;
    add_if(&mut files, "map", contents.map)?;
    add_if(&mut files, "list", contents.list)?;
    files.fail(orders.fail)?;
    files.most(orders.most);
    Ok(files)
}

// Adds a file that may not be there.
fn add_if(files: &mut MemFiles, name: &str, bytes: Option<&[u8]>) -> Result<(), AllocError>
    requires { NoneAsked (mem_state files.old) }
    ensures { NoneAsked (mem_state files.new) }
{
    match bytes {
        Some(bytes) => files.add(name, bytes),
        None => Ok(()),
    }
}

// Patterns of which that call is refused.
fn patterns_of(alloc: Global, fail: u64) -> Result<MemPatterns, AllocError> {
    let mut patterns = MemPatterns::new(alloc);
    patterns.fail(fail)?;
    Ok(patterns)
}

// A sink that is told these orders.
fn sink_of(alloc: Global, orders: &Orders) -> Result<MemSink, AllocError> {
    let mut sink = MemSink::new(alloc, orders.room)?;
    sink.fail(orders.fail)?;
    sink.most(orders.most);
    Ok(sink)
}

// The answer of a run that ended with that code.
fn answer_of(alloc: Global, code: u8, out: &MemSink, err: &MemSink) -> Result<Answer, AllocError> {
    Ok(Answer {
        code,
        out: Vec::from_slice(alloc, out.bytes())?,
        err: Vec::from_slice(alloc, err.bytes())?,
    })
}
