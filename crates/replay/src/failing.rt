// Whose call fails, and what a run is refused with then.
use crate::playing::Contents;
use case_tables::{Answer, Case, Orders, Outside};

/// Whose call fails.
#[derive(Clone, Copy)]
pub enum Failing {
    /// The files', at the policy.
    Policy,
    /// The files', at the map.
    Map,
    /// The files', at the checklist.
    List,
    Patterns,
    Out,
    Err,
}

impl Failing {
    /// What is told so that a call of it fails.
    pub fn failing(self, outside: &Outside, call: u64) -> Outside {
        match self {
            Failing::Policy | Failing::Map | Failing::List => Outside {
                files: outside.files.failing(call),
                ..*outside
            },
            Failing::Patterns => Outside {
                patterns: call,
                ..*outside
            },
            Failing::Out => Outside {
                out: outside.out.failing(call),
                ..*outside
            },
            Failing::Err => Outside {
                err: outside.err.failing(call),
                ..*outside
            },
        }
    }

    /// The least number of its calls that a run can give the case's answer with.
    pub fn least_calls(self, case: &Case, contents: Contents<'_>) -> u64 {
        match self {
            Failing::Policy => least_reads(contents.policy, &case.outside.files),
            Failing::Map => least_reads(contents.map, &case.outside.files),
            Failing::List => least_reads(contents.list, &case.outside.files),
            Failing::Patterns => 1,
            Failing::Out => case.outside.out.turns(case.wanted.out.len()),
            Failing::Err => case.outside.err.turns(case.wanted.err.len()),
        }
    }

    /// Whether a run of which that call failed is refused as it has to be.
    pub fn is_refused(self, case: &Case, call: u64, got: &Answer) -> bool {
        let before = call.saturating_sub(1);
        match self {
            Failing::Policy => {
                got.out.is_empty() && ends_with(got, 3, b"setools: policy: read failed\n")
            }
            Failing::Map => got.out.is_empty() && ends_with(got, 3, b"setools: map: read failed\n"),
            Failing::List => {
                got.out.is_empty() && ends_with(got, 3, b"setools: checklist: read failed\n")
            }
            Failing::Patterns => {
                got.code == 1 && got.out.is_empty() && got.err.ends_with(b": pattern refused\n")
            }
            Failing::Out => {
                ends_with(got, 3, b"setools: write failed\n")
                    && is_begun(&got.out, &case.wanted.out, case.outside.out.most, before)
            }
            Failing::Err => {
                got.code == case.wanted.code
                    && got.out == case.wanted.out
                    && is_begun(&got.err, &case.wanted.err, case.outside.err.most, before)
            }
        }
    }
}

// Whether a run ended with that status and that message.
fn ends_with(got: &Answer, code: u8, message: &[u8]) -> bool {
    got.code == code && got.err.as_slice() == message
}

// Whether so many writes, of a byte at least and at most `most` bytes each, can have written what was written of a text that was not
// written whole.
fn is_begun(written: &[u8], text: &[u8], most: usize, writes: u64) -> bool {
    let length = written.len() as u64;
    length >= writes
        && length <= writes.saturating_mul(most as u64)
        && written.len() < text.len()
        && text.starts_with(written)
}

// The least number of calls that read a file whole: opening it, the reads that give its bytes, and the one that tells the end.
fn least_reads(file: Option<&[u8]>, orders: &Orders) -> u64 {
    match file {
        Some(bytes) => orders.turns(bytes.len()).saturating_add(2),
        None => 0,
    }
}
