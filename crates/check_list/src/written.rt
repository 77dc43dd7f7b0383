// The checks of the lines that were read.
ghost use Rattle.text_rows.specs.TextLines.{fields_in};
ghost use Rattle.check_list.specs.CheckLines.{type_in};
ghost use Rattle.check_list.specs.Checklists.{begun, ended, last_with};
ghost use Rattle.check_list.specs.Inner.LastViews.{last_of};
ghost use Rattle.check_list.specs.Inner.LineViews.{AnswersAs};

use crate::check::{Check, refused};
use crate::lines::{Line, SettingLine, line_in, type_in};
use crate::list_fault::{ListCause, ListError};
use indexmap::IndexSet;
use std::alloc::Global;
use std::marker::Model;
use text_rows::Row;

/// What the last heading began.
#[derive(Drop)]
pub enum Last<'a> {
    /// There was no heading yet.
    Nothing,
    /// No line follows the heading of that name yet.
    Heading(&'a [u8]),
    Check(Check<'a>),
}

/// The checks of some lines. The last one may gain settings.
#[derive(Drop)]
pub struct Written<'a> {
    checks: Vec<Check<'a>>,
    names: IndexSet<&'a [u8]>,
    last: Last<'a>,
}

impl<'a> Model for Written<'a> {
    ghost use Rattle.std.specs.Prelude.{◌≡◌, ◌++◌, map};
    ghost use Rattle.check_list.specs.Checklists.{Written};
    ghost use Rattle.check_list.specs.Inner.LastViews.{last_of, names_begun};

    ghost Value = { Written };

    ghost view = { λ w. record { checks = w.checks.items; last = last_of w.last } };

    ghost invariant = { λ w. map (λ name. name.now) w.names.keys ≡ map (λ check. check.name) w.checks.items ++ names_begun (last_of w.last) };
}

// The check that begins with that setting.
fn begun<'a>(
    alloc: Global,
    name: &'a [u8],
    number: u32,
    line: SettingLine<'a>,
) -> Result<Last<'a>, ListError>
    ensures { AnswersAs last_of (begun name.now number (type_in line.entry.key.now (fields_in line.entry.values.now))) result }
{
    match type_in(line.key, line.values) {
        Some(kind) => Ok(Last::Check(Check::new(alloc, name, kind))),
        None => Err(refused(number, ListCause::BadType)),
    }
}

// The last check with one more setting.
fn last_with<'a>(
    alloc: Global,
    last: Last<'a>,
    number: u32,
    line: SettingLine<'a>,
) -> Result<Last<'a>, ListError>
    ensures { AnswersAs last_of (last_with (last_of last.entry) number line.entry.key.now (fields_in line.entry.values.now)) result }
{
    match last {
        Last::Nothing => Err(refused(number, ListCause::NoCheck)),
        Last::Heading(name) => begun(alloc, name, number, line),
        Last::Check(check) => {
            let check = check.with_setting(number, line)?;
            Ok(Last::Check(check))
        }
    }
}

// The checks with the last one, which a line of that number ends.
fn ended<'a>(
    mut checks: Vec<Check<'a>>,
    last: Last<'a>,
    number: u32,
) -> Result<Vec<Check<'a>>, ListError>
    ensures { AnswersAs (λ all. all.items) (ended checks.entry.items (last_of last.entry) number) result }
{
    match last {
        Last::Nothing => Ok(checks),
        Last::Heading(_) => Err(refused(number, ListCause::Missing)),
        Last::Check(check) => {
            if !check.is_whole() {
                return Err(refused(number, ListCause::Missing));
            }
            checks.push(check)?;
            Ok(checks)
        }
    }
}

impl<'a> Written<'a> {
    ghost use Rattle.std.specs.Prelude.{◌≡◌};
    ghost use Rattle.text_rows.specs.RowViews.{row_of};
    ghost use Rattle.text_rows.specs.TextLines.{fields_in};
    ghost use Rattle.check_list.specs.Checklists.{Answers, ended, gained, headed, last_with, nothing, with_row};
    ghost use Rattle.check_list.specs.Inner.LineViews.{AnswersAs};

    /// No checks yet.
    pub fn new(alloc: Global) -> Written<'a>
        ensures { result ≡ nothing }
    {
        Written {
            checks: Vec::new(alloc),
            names: IndexSet::new(alloc),
            last: Last::Nothing,
        }
    }

    // Ends the last check, and begins one of that name.
    fn with_heading(self, name: &'a [u8], number: u32) -> Result<Written<'a>, ListError>
        ensures { Answers (headed name.now number (ended self.entry.checks self.entry.last number)) result }
    {
        let Written {
            checks,
            mut names,
            last,
        } = self;
        let checks = ended(checks, last, number)?;
        if !names.insert(name)? {
            return Err(refused(number, ListCause::DuplicateName));
        }
        Ok(Written {
            checks,
            names,
            last: Last::Heading(name),
        })
    }

    // Adds a setting to the last check.
    fn with_setting(
        self,
        alloc: Global,
        number: u32,
        line: SettingLine<'a>,
    ) -> Result<Written<'a>, ListError>
        ensures { Answers (gained self.entry.checks (last_with self.entry.last number line.entry.key.now (fields_in line.entry.values.now))) result }
    {
        let Written {
            checks,
            names,
            last,
        } = self;
        let last = last_with(alloc, last, number, line)?;
        Ok(Written {
            checks,
            names,
            last,
        })
    }

    /// The checks after one more line.
    pub fn with_row(self, alloc: Global, row: Row<'a>) -> Result<Written<'a>, ListError>
        ensures { Answers (with_row self.entry (row_of row.entry)) result }
    {
        match line_in(row.text) {
            Some(Line::Heading(name)) => self.with_heading(name, row.number),
            Some(Line::Setting(line)) => self.with_setting(alloc, row.number, line),
            None => Err(refused(row.number, ListCause::BadLine)),
        }
    }

    /// All checks, of which the last ends at the line of that number.
    pub fn ended(self, number: u32) -> Result<Vec<Check<'a>>, ListError>
        ensures { AnswersAs (λ all. all.items) (ended self.entry.checks self.entry.last number) result }
    {
        let Written {
            checks,
            names,
            last,
        } = self;
        ended(checks, last, number)
    }
}
