// Rules grouped by one of their ends.
ghost use Rattle.std.specs.Prelude.{◌≡◌, ◌<◌, ◌^◌, true, IfOk, length};
ghost use Rattle.std.specs.List.{All};
ghost use Rattle.pol_expand.specs.JoinedTypes.{is_between_types};
ghost use Rattle.rules_by_end.specs.RulesByEnd.{AreRowsOf, rows_under};
ghost use Rattle.rules_by_end.specs.Inner.GroupedRules.{has_rows, AreSortedIfMany};

use crate::grouping::{row_starts, rows_by_end, sort_by_far_end};
use crate::rule_row::RuleRow;
use crate::source_or_target::RuleEnd;
use pol_expand::EndsInUse;
use pol_read::Policy;
use std::alloc::{AllocError, Global};
use std::marker::Model;

/// Rules under one of their ends, many of a value sorted by their other end. Contracts see the rows under each value, by value from 0 on.
pub struct GroupedRules {
    // By value: where its rows begin, which is where those of the value before it end.
    starts: Vec<usize>,
    rows: Vec<RuleRow>,
}

// Its parts go in one call, wherever it is dropped.
impl Drop for GroupedRules {
    fn drop(self) {
        let GroupedRules { starts, rows } = self;
    }
}

impl Model for GroupedRules {
    ghost use Rattle.std.specs.Prelude.{List};
    ghost use Rattle.rules_by_end.specs.declared.rule_row.RuleRow.{RuleRow};
    ghost use Rattle.rules_by_end.specs.Inner.GroupedRules.{rows_in, AreRowSteps, AreSortedUnderEach};

    ghost Value = { List (List RuleRow) };

    ghost view = { λ r. rows_in r.starts.items r.rows.items };

    ghost invariant = { λ r. AreRowSteps r.starts.items r.rows.items × AreSortedUnderEach (rows_in r.starts.items r.rows.items) };
}

impl GroupedRules {
    /// Puts the rules of these numbers under one of their ends, in two passes over them, and sorts those under a value by their
    /// other end where they are many. The ends of each are types and attributes.
    pub fn of_rules(
        alloc: Global,
        policy: &Policy<'_>,
        near: RuleEnd,
        numbers: &[u32],
    ) -> Result<GroupedRules, AllocError>
        requires rules { All (λ number. is_between_types policy.now number ≡ true) numbers.now }
        requires few { length numbers.now < 2 ^ 32 }
        ensures { IfOk result (λ rows. AreRowsOf policy.now near numbers.now rows) }
    {
        let starts = row_starts(alloc, policy, near, numbers)?;
        let mut rows = rows_by_end(alloc, policy, near, numbers, &starts)?;
        sort_by_far_end(&starts, &mut rows);
        Ok(GroupedRules { starts, rows })
    }

    /// The rows under a value, many of them sorted by their other end. There is none under a value above all ends.
    pub fn under(&self, end: u32) -> &[RuleRow]
        ensures rows { result.now ≡ rows_under self.now end }
        ensures rise { AreSortedIfMany result.now }
    {
        let place = end as usize;
        if place + 1 >= self.starts.len() {
            return &[];
        }
        let start = self.starts[place];
        let stop = self.starts[place + 1];
        &self.rows[start..stop]
    }
}

impl EndsInUse for GroupedRules {
    ghost has = { has_rows };

    fn has(&self, end: u32) -> bool {
        !self.under(end).is_empty()
    }
}
