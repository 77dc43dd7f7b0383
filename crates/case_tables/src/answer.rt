// What a run gives, and how two answers differ.
ghost use Rattle.std.specs.Prelude.{◌≡◌, ◌↔◌, [], IfOk};
ghost use Rattle.case_tables.specs.Answer.{Agree};

use crate::text::escaped;
use std::alloc::{AllocError, Global};

/// What a run gives: its status as a number, and what it wrote.
#[derive(Drop)]
pub struct Answer {
    pub code: u8,
    pub out: Vec<u8>,
    pub err: Vec<u8>,
}

impl Answer {
    /// 0, and nothing written.
    pub fn new(alloc: Global) -> Answer {
        Answer {
            code: 0,
            out: Vec::new(alloc),
            err: Vec::new(alloc),
        }
    }
}

/// What differs, a line each; none where the answers are equal.
pub fn differences(alloc: Global, wanted: &Answer, got: &Answer) -> Result<Vec<String>, AllocError>
    ensures { IfOk result (λ lines. (lines.items ≡ []) ↔ Agree wanted.now got.now) }
{
    let mut lines = Vec::new(alloc);
    if wanted.code != got.code {
        lines.push(format!(in alloc; "code {} in place of {}", got.code, wanted.code)?)?;
    }
    if wanted.out != got.out {
        lines.push(text_difference(alloc, "out", &wanted.out, &got.out)?)?;
    }
    if wanted.err != got.err {
        lines.push(text_difference(alloc, "err", &wanted.err, &got.err)?)?;
    }
    Ok(lines)
}

// The first line of two texts that differs.
fn text_difference(
    alloc: Global,
    name: &str,
    wanted: &[u8],
    got: &[u8],
) -> Result<String, AllocError> {
    let number = equal_lines(wanted, got);
    let had = shown(alloc, got, number)?;
    let missed = shown(alloc, wanted, number)?;
    format!(in alloc;
        "{name}, line {}: {had} in place of {missed}",
        number.saturating_add(1)
    )
}

// How many lines of two texts are equal before the first that is not.
fn equal_lines(wanted: &[u8], got: &[u8]) -> usize {
    let mut count = 0usize;
    for (mine, other) in wanted.iter().zip(got) {
        if mine != other {
            return count;
        }
        if *mine == b'\n' {
            count = count.saturating_add(1);
        }
    }
    count
}

// A line of a text in quotes, with its line feed where it has one, or that the text has ended.
fn shown(alloc: Global, text: &[u8], number: usize) -> Result<String, AllocError> {
    match text.split_inclusive(|byte| *byte == b'\n').nth(number) {
        Some(line) => {
            let line = escaped(alloc, line)?;
            format!(in alloc; "\"{line}\"")
        }
        None => String::from_str(alloc, "the end"),
    }
}
