// The lines of a checklist's answer, as a text that is made line by line.
ghost use Rattle.std.specs.Prelude.{◌≡◌, ◌<◌, ◌≤◌, ◌^◌, false, OnOk, length};
ghost use Rattle.se_verdicts.specs.CheckAnswer.{lines_of_checks};
ghost use Rattle.se_verdicts.specs.Inner.CheckLines.{AddsLine, IsStanding, failed_by, lines_left};

use crate::found::{Found, FoundKind, found_by, push_found_line};
use crate::lines::{push_check_line, push_total_line};
use check_list::CheckList;
use rule_text::RuleTexts;
use se_checker::Checker;
use se_items::Pieces;
use std::alloc::{AllocError, Global};

/// The lines of all checks of a list. A check is looked at when its first line is made, and what it finds is kept until its last one is.
#[derive(Drop)]
pub struct CheckLines<'q, 'p, 'a, 'l> {
    pub checker: &'q Checker<'p, 'a>,
    pub texts: &'q RuleTexts<'p, 'a>,
    pub list: &'q CheckList<'l>,
    // how many checks were looked at, and how many of them failed
    pub next: usize,
    pub failed: u64,
    // what the last one found
    pub found: Found,
    // whether the line was made that counts the failed ones
    pub ended: bool,
}

impl<'q, 'p, 'a, 'l> CheckLines<'q, 'p, 'a, 'l> {
    /// The lines of all checks of a list that a policy is held to, with the texts of its rules.
    pub fn new(
        alloc: Global,
        checker: &'q Checker<'p, 'a>,
        texts: &'q RuleTexts<'p, 'a>,
        list: &'q CheckList<'l>,
    ) -> CheckLines<'q, 'p, 'a, 'l>
        requires { texts.now ≡ checker.now }
        ensures lines { lines_left result ≡ lines_of_checks checker.now list.now }
        ensures stands { IsStanding result }
    {
        CheckLines {
            checker,
            texts,
            list,
            next: 0,
            failed: 0,
            found: Found {
                kind: FoundKind::Types,
                values: Vec::new(alloc),
                next: 0,
            },
            ended: false,
        }
    }

    // Adds the next line of what the last check found.
    fn push_found(&mut self, buffer: &mut Vec<u8>) -> Result<(), AllocError>
        requires stands { IsStanding self.old }
        requires some { self.old.found.next < length self.old.found.values.items }
        ensures line { OnOk result (AddsLine (lines_left self.old) (lines_left self.new) buffer.old.items buffer.new.items) }
        ensures stands { OnOk result (IsStanding self.new) }
    {
        let value = self.found.values[self.found.next];
        push_found_line(self.texts, self.found.kind, value, buffer)?;
        self.found.next += 1;
        Ok(())
    }

    // Looks at the next check, and adds its first line.
    fn push_check(&mut self, buffer: &mut Vec<u8>) -> Result<(), AllocError>
        requires stands { IsStanding self.old }
        requires none { length self.old.found.values.items ≤ self.old.found.next }
        requires some { self.old.next < length self.old.list.now }
        requires few { length self.old.list.now < 2 ^ 64 }
        ensures line { OnOk result (AddsLine (lines_left self.old) (lines_left self.new) buffer.old.items buffer.new.items) }
        ensures stands { OnOk result (IsStanding self.new) }
    {
        let check = self.list.check(self.next);
        let found = found_by(*buffer.allocator(), self.checker, check)?;
        let count = found.values.len();
        push_check_line(check, count, buffer)?;
        self.failed += failed_by(count);
        self.next += 1;
        self.found = found;
        Ok(())
    }

    // Adds the line that counts the failed checks.
    fn push_total(&mut self, buffer: &mut Vec<u8>) -> Result<(), AllocError>
        requires stands { IsStanding self.old }
        requires none { length self.old.found.values.items ≤ self.old.found.next }
        requires all { length self.old.list.now ≤ self.old.next }
        requires last { self.old.ended ≡ false }
        ensures line { OnOk result (AddsLine (lines_left self.old) (lines_left self.new) buffer.old.items buffer.new.items) }
        ensures stands { OnOk result (IsStanding self.new) }
    {
        push_total_line(self.failed, buffer)?;
        self.ended = true;
        Ok(())
    }
}

// How many checks have failed by one that finds so many.
fn failed_by(count: usize) -> u64
    ensures exact { result ≡ failed_by count }
    ensures most { result ≤ 1 }
{
    if count == 0 { 0 } else { 1 }
}

impl Pieces for CheckLines<'_, '_, '_, '_> {
    ghost use Rattle.se_verdicts.specs.Inner.CheckLines.{IsStanding, text_left};

    ghost left = { text_left };

    ghost stands = { IsStanding };

    fn push_piece(&mut self, buffer: &mut Vec<u8>) -> Result<bool, AllocError> {
        if self.found.next < self.found.values.len() {
            self.push_found(buffer)?;
        } else if self.next < self.list.len() {
            self.push_check(buffer)?;
        } else if !self.ended {
            self.push_total(buffer)?;
        } else {
            return Ok(false);
        }
        Ok(true)
    }
}
