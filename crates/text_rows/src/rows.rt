// The lines of a text, one after the other.
ghost use Rattle.std.specs.Prelude.{◌≡◌, ◌<◌, ◌≤◌, ◌+◌, [], ◌∷◌, MatchOption, MatchResult, IfSome, length, not, position, ◌==◌};
ghost use Rattle.std.specs.Str.Lines.{strip_carriage_return};
ghost use Rattle.text_rows.specs.declared.limits.TheConstants.{MAX_TEXT_BYTES};
ghost use Rattle.text_rows.specs.RowViews.{row_of};
ghost use Rattle.text_rows.specs.TextLines.{fields_in, is_empty, lines_of, rows_from};

use crate::fields::first_field;
use std::marker::Model;

/// A line that has fields.
#[derive(Clone, Copy)]
pub struct Row<'a> {
    /// Its number, from 1 on.
    pub number: u32,
    /// The line, without a carriage return at its end.
    pub text: &'a [u8],
}

/// The lines of a text that are left. Contracts see those with fields, and the number of the line past the last.
#[derive(Drop)]
pub struct Rows<'a> {
    rest: &'a [u8],
    // How many lines were taken.
    taken: u32,
}

impl<'a> Model for Rows<'a> {
    ghost use Rattle.std.specs.Prelude.{◌+◌, ◌<◌, length};
    ghost use Rattle.text_rows.specs.TextLines.{lines_of, rows_from};
    ghost use Rattle.text_rows.specs.TextLines.{Rest};

    ghost Value = { Rest };

    ghost view = { λ r. record { rows = rows_from (r.taken + 1) (lines_of r.rest.now); past = r.taken + length (lines_of r.rest.now) + 1 } };

    ghost invariant = { λ r. r.taken + length (lines_of r.rest.now) < 4294967295 };
}

// The first line of some bytes, without its line feed, and what follows it.
fn first_line(bytes: &[u8]) -> Option<(&[u8], &[u8])>
    ensures lines { MatchOption result (lines_of bytes.now ≡ []) (λ r. lines_of bytes.now ≡ r.0.now ∷ lines_of r.1.now) }
    ensures shorter { IfSome result (λ r. length r.1.now < length bytes.now) }
{
    if bytes.is_empty() {
        return None;
    }
    match line_feed(bytes) {
        Some(end) => Some((&bytes[..end], &bytes[end + 1..])),
        None => Some((bytes, &[])),
    }
}

// The place of the first line feed.
fn line_feed(bytes: &[u8]) -> Option<usize>
    ensures { result ≡ position (λ byte. byte == 10) bytes.now }
{
    bytes.iter().position(|byte| *byte == b'\n')
}

// A line without the carriage return at its end, if it has one.
fn without_return(line: &[u8]) -> &[u8]
    ensures { result.now ≡ strip_carriage_return line.now }
{
    match line {
        [text @ .., b'\r'] => text,
        _ => line,
    }
}

fn has_fields(text: &[u8]) -> bool
    ensures { result ≡ not (is_empty (fields_in text.now)) }
{
    first_field(text).is_some()
}

// The first line with fields of some bytes after so many lines, and what follows it. Where there is none, the number of the line past the
// last.
fn find_row(bytes: &[u8], taken: u32) -> Result<(Row<'_>, &[u8]), u32>
    requires { taken + length (lines_of bytes.now) < 4294967295 }
    ensures rows { MatchResult result (λ r. rows_from (taken + 1) (lines_of bytes.now) ≡ row_of r.0 ∷ rows_from (r.0.number + 1) (lines_of r.1.now)) (λ past. rows_from (taken + 1) (lines_of bytes.now) ≡ []) }
    ensures count { MatchResult result (λ r. r.0.number + length (lines_of r.1.now) ≡ taken + length (lines_of bytes.now)) (λ past. past ≡ taken + length (lines_of bytes.now) + 1) }
{
    let mut rest = bytes;
    let mut number = taken;
    while let Some((line, after)) = first_line(rest) {
        rest = after;
        number += 1;
        let text = without_return(line);
        if has_fields(text) {
            return Ok((Row { number, text }, rest));
        }
    }
    Err(number + 1)
}

impl<'a> Rows<'a> {
    ghost use Rattle.text_rows.specs.RowViews.{row_of};

    /// The lines of some bytes.
    #[tactic(auto, using(crate::proofs::LineLemmas::length_lines))]
    pub fn new(bytes: &'a [u8]) -> Rows<'a>
        requires { length bytes.now ≤ MAX_TEXT_BYTES }
        ensures { result ≡ record { rows = rows_from 1 (lines_of bytes.now); past = length (lines_of bytes.now) + 1 } }
    {
        Rows {
            rest: bytes,
            taken: 0,
        }
    }

    /// The next line that has fields. Where there is none, the number of the line past the last.
    pub fn next(&mut self) -> Result<Row<'a>, u32>
        ensures row { MatchResult result (λ r. self.old.rows ≡ row_of r ∷ self.new.rows) (λ past. (self.old.rows ≡ []) × (past ≡ self.old.past)) }
        ensures past { self.new.past ≡ self.old.past }
    {
        match find_row(self.rest, self.taken) {
            Ok((row, rest)) => {
                self.rest = rest;
                self.taken = row.number;
                Ok(row)
            }
            Err(past) => Err(past),
        }
    }
}
