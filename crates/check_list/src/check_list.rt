// A checklist.
ghost use Rattle.text_rows.specs.declared.limits.TheConstants.{MAX_TEXT_BYTES};
ghost use Rattle.std.specs.Prelude.{Ok};
ghost use Rattle.std.specs.List.{fold};
ghost use Rattle.check_list.specs.Checklists.{after_row, all_ended, nothing};
ghost use Rattle.check_list.specs.Inner.LineViews.{AnswersAs};

use crate::check::Check;
use crate::list_fault::ListError;
use crate::written::Written;
use std::alloc::Global;
use std::marker::Model;
use text_rows::Rows;

/// A checklist. Contracts see the list of its checks.
///
/// Names and values are those of the bytes that were read; none is copied.
#[derive(Drop)]
pub struct CheckList<'a> {
    checks: Vec<Check<'a>>,
}

impl<'a> Model for CheckList<'a> {
    ghost use Rattle.std.specs.Prelude.{List};
    ghost use Rattle.check_list.specs.Checklists.{Check};

    ghost Value = { List Check };

    ghost view = { λ l. l.checks.items };
}

// The checks of the lines.
fn read_rows<'a>(alloc: Global, rows: &mut Rows<'a>) -> Result<Vec<Check<'a>>, ListError>
    ensures { AnswersAs (λ all. all.items) (all_ended rows.old.past (fold after_row (Ok nothing) rows.old.rows)) result }
{
    let mut written = Written::new(alloc);
    loop {
        match rows.next() {
            Ok(row) => written = written.with_row(alloc, row)?,
            Err(past) => return written.ended(past),
        }
    }
}

impl<'a> CheckList<'a> {
    ghost use Rattle.std.specs.Prelude.{◌≡◌, ◌<◌, ◌≤◌, length, slice_get, Some};
    ghost use Rattle.check_list.specs.Checklists.{Answers, list_of};

    /// Reads a checklist, or answers the fault of its first faulty line.
    ///
    /// The last check ends at the line past the last one, blank lines and comments counted.
    pub fn read(alloc: Global, bytes: &'a [u8]) -> Result<CheckList<'a>, ListError>
        requires { length bytes.now ≤ MAX_TEXT_BYTES }
        ensures { Answers (list_of bytes.now) result }
    {
        let mut rows = Rows::new(bytes);
        let checks = read_rows(alloc, &mut rows)?;
        Ok(CheckList { checks })
    }

    pub fn len(&self) -> usize
        ensures { result ≡ length self.now }
    {
        self.checks.len()
    }

    /// The check of that number, from 0 on.
    pub fn check(&self, i: usize) -> &Check<'a>
        requires { i < length self.now }
        ensures { slice_get self.now i ≡ Some result.now }
    {
        &self.checks[i]
    }
}
