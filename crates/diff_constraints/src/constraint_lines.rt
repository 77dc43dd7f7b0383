//! The lines of what differs between the constraints of two policies.

ghost use Rattle.std.specs.Prelude.{◌≡◌, ◌<◌, ◌++◌, IfOk, OnOk, length};
ghost use Rattle.diff_constraints.specs.ConstraintDifferences.{constraint_lines};

use crate::alone::constraints_alone;
use crate::change_lines::lines_of_groups;
use crate::keyword::ConstraintKeyword;
use crate::stated::stated_in;
use diff_entries::Text;
use info_lines::EntryText;
use pol_read::Policy;
use std::alloc::{AllocError, Global};
use std::marker::Model;

/// The lines of what differs between the constraints of two policies. Contracts see the list of them.
#[derive(Drop)]
pub struct ConstraintLines {
    lines: Vec<Text>,
}

impl Model for ConstraintLines {
    ghost use Rattle.std.specs.Prelude.{ℕ, List};

    ghost Value = { List (List ℕ) };

    ghost view = { λ l. l.lines.items };
}

impl ConstraintLines {
    /// The lines of what differs between the constraints of a keyword, from the first policy to the second.
    #[tactic(auto, unfolding(crate::specs::ConstraintDifferences::constraint_lines, crate::specs::ConstraintDifferences::constraint_changes))]
    pub fn new(
        alloc: Global,
        keyword: ConstraintKeyword,
        first: &Policy<'_>,
        second: &Policy<'_>,
    ) -> Result<ConstraintLines, AllocError>
        ensures { IfOk result (λ lines. lines ≡ constraint_lines keyword first.now second.now) }
    {
        let old = stated_in(alloc, first.symbols(), keyword)?;
        let new = stated_in(alloc, second.symbols(), keyword)?;
        let soles = constraints_alone(alloc, &old, &new)?;
        let lines = lines_of_groups(alloc, keyword, &soles)?;
        Ok(ConstraintLines { lines })
    }
}

impl EntryText for ConstraintLines {
    ghost lines = { λ lines. lines };

    fn len(&self) -> usize {
        self.lines.len()
    }

    fn push_text(&self, number: usize, buffer: &mut Vec<u8>) -> Result<(), AllocError> {
        buffer.extend_from_slice(self.lines[number].bytes())
    }
}
