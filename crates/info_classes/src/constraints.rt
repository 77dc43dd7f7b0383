//! The listings of constraints.

ghost use Rattle.std.specs.Prelude.{◌≡◌, ◌<◌, IfOk, length, map, option_map};
ghost use Rattle.std.specs.List.{All};
ghost use Rattle.info_classes.specs.RecordOrder.{records_at};
ghost use Rattle.info_classes.specs.ConstraintLines.{constraint_line, constraint_listing, entries_in};

use crate::constraint_entry::{ConstraintEntry, ConstraintKind, constraint_entries};
use crate::constraint_parts::push_constraint;
use crate::expression_texts::{ExpressionText, expression_texts, kept_text};
use info_lines::{EntryLines, EntryText, numbers_listed};
use pol_fields::TableKind;
use pol_symbols::Symbols;
use std::alloc::{AllocError, Global};
use std::marker::Model;

/// The lines of constraints, by their numbers. Contracts see all of them.
#[derive(Drop)]
pub struct ConstraintLines<'p, 'a> {
    symbols: &'p Symbols<'a>,
    kind: ConstraintKind,
    entries: Vec<ConstraintEntry<'a>>,
    // Texts that entries have in common.
    texts: Vec<ExpressionText>,
}

impl<'p, 'a> Model for ConstraintLines<'p, 'a> {
    ghost use Rattle.std.specs.Prelude.{ℕ, List, map};
    ghost use Rattle.std.specs.List.{All};
    ghost use Rattle.info_classes.specs.ConstraintLines.{constraint_line};
    ghost use Rattle.info_classes.specs.Inner.ExpressionTexts.{IsKept};

    ghost Value = { List (List ℕ) };

    ghost view = { λ l. map (constraint_line l.symbols.now l.kind) l.entries.items };

    ghost invariant = { λ l. All (IsKept l.symbols.now l.entries.items) l.texts.items };
}

impl<'p, 'a> ConstraintLines<'p, 'a> {
    // The constraints of a kind of the classes of these numbers.
    fn new(
        alloc: Global,
        symbols: &'p Symbols<'a>,
        kind: ConstraintKind,
        numbers: &[u32],
    ) -> Result<ConstraintLines<'p, 'a>, AllocError>
        requires { All (λ n. n < length symbols.now.classes.records) numbers.now }
        ensures { IfOk result (λ lines. lines ≡ map (constraint_line symbols.now kind) (entries_in kind (records_at symbols.now.classes.records numbers.now))) }
    {
        let entries = constraint_entries(alloc, symbols, kind, numbers)?;
        let texts = expression_texts(alloc, symbols, &entries)?;
        Ok(ConstraintLines {
            symbols,
            kind,
            entries,
            texts,
        })
    }
}

impl<'p, 'a> EntryText for ConstraintLines<'p, 'a> {
    ghost lines = { λ lines. lines };

    fn len(&self) -> usize {
        self.entries.len()
    }

    #[tactic(auto, using(info_lines::proofs::ListingLines::line_at))]
    fn push_text(&self, number: usize, buffer: &mut Vec<u8>) -> Result<(), AllocError> {
        let entry = &self.entries[number];
        let kept = kept_text(&self.texts, self.symbols, &self.entries, &entry.constraint);
        push_constraint(buffer, self.symbols, self.kind, entry, kept)
    }
}

// The constraints of a kind of the classes of these numbers, one after the other.
fn lines_of_classes<'p, 'a>(
    alloc: Global,
    symbols: &'p Symbols<'a>,
    kind: ConstraintKind,
    numbers: &[u32],
) -> Result<EntryLines<ConstraintLines<'p, 'a>>, AllocError>
    requires { All (λ n. n < length symbols.now.classes.records) numbers.now }
    ensures { IfOk result (λ lines. lines ≡ map (constraint_line symbols.now kind) (entries_in kind (records_at symbols.now.classes.records numbers.now))) }
{
    Ok(EntryLines::new(ConstraintLines::new(alloc, symbols, kind, numbers)?))
}

/// The constraints of a kind, in the order of the classes' names, or where a name is given, those of the class that it finds.
/// `None` exactly where it finds none.
#[tactic(auto, unfolding(crate::specs::ConstraintLines::constraint_listing))]
pub fn constraint_lines<'p, 'a>(
    alloc: Global,
    symbols: &'p Symbols<'a>,
    kind: ConstraintKind,
    name: Option<&[u8]>,
) -> Result<Option<EntryLines<ConstraintLines<'p, 'a>>>, AllocError>
    ensures { IfOk result (λ lines. lines ≡ constraint_listing symbols.now kind (option_map (λ name. name.now) name.entry)) }
{
    let Some(numbers) = numbers_listed(alloc, symbols, TableKind::Classes, name)? else {
        return Ok(None);
    };
    Ok(Some(lines_of_classes(alloc, symbols, kind, &numbers)?))
}
