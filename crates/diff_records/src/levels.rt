//! The entries of levels.

ghost use Rattle.std.specs.Prelude.{◌≡◌, ◌<◌, IfOk, length};
ghost use Rattle.std.specs.List.{All};
ghost use Rattle.info_classes.specs.RecordOrder.{records_at};
ghost use Rattle.diff_records.specs.LevelEntries.{level_entries};

use crate::records::{ComparedRecord, RecordEntries};
use diff_entries::{Key, Label, Part};
use diff_parts::{names_part, one_part, push_named};
use info_lines::{names_of_bits, primary_order};
use pol_datums::SensitivityView;
use pol_fields::TableKind;
use pol_mls::level_text;
use pol_read::Policy;
use pol_symbols::Symbols;
use std::alloc::{AllocError, Global};

impl<'a> ComparedRecord for SensitivityView<'a> {
    ghost use Rattle.diff_records.specs.LevelEntries.{level_entry};

    ghost entry = { λ symbols level. level_entry symbols level.value };

    #[tactic(auto, unfolding(crate::specs::LevelEntries::level_entry))]
    fn key(&self, alloc: Global, symbols: &Symbols<'_>) -> Result<Key, AllocError> {
        Key::of_name(alloc, self.name())
    }

    #[tactic(auto, unfolding(crate::specs::LevelEntries::level_entry))]
    fn parts<'r>(
        &'r self,
        alloc: Global,
        symbols: &'r Symbols<'_>,
    ) -> Result<Vec<Part<'r>>, AllocError> {
        let names = names_of_bits(alloc, symbols, TableKind::Categories, &self.categories())?;
        one_part(alloc, names_part(Label::Unnamed, names))
    }

    #[tactic(auto, unfolding(crate::specs::LevelEntries::level_entry))]
    fn push_statement(
        &self,
        symbols: &Symbols<'_>,
        buffer: &mut Vec<u8>,
    ) -> Result<(), AllocError> {
        let alloc = *buffer.allocator();
        let text = level_text(alloc, self.sens(), &self.categories(), symbols)?;
        push_named(buffer, b"level ", &text)?;
        Ok(buffer.push(b';')?)
    }

    #[tactic(auto, unfolding(crate::specs::LevelEntries::level_entry))]
    fn push_head(&self, symbols: &Symbols<'_>, buffer: &mut Vec<u8>) -> Result<(), AllocError> {
        push_named(buffer, b"level ", self.name())
    }
}

// The sensitivities of these numbers.
fn levels_at<'a>(
    alloc: Global,
    symbols: &Symbols<'a>,
    numbers: &[u32],
) -> Result<Vec<SensitivityView<'a>>, AllocError>
    requires { All (λ n. n < length symbols.now.levels.records) numbers.now }
    ensures { IfOk result (λ levels. levels.items ≡ records_at symbols.now.levels.records numbers.now) }
{
    let mut levels = Vec::new(alloc);
    for number in numbers {
        levels.push(symbols.levels.view(*number))?;
    }
    Ok(levels)
}

/// The entries of the levels of a policy: each sensitivity has the set of its categories.
#[tactic(auto, unfolding(crate::specs::LevelEntries::level_entries))]
pub fn level_entries<'p, 'a>(
    alloc: Global,
    policy: &'p Policy<'a>,
) -> Result<RecordEntries<'p, 'a, SensitivityView<'a>>, AllocError>
    ensures { IfOk result (λ entries. entries ≡ level_entries policy.now) }
{
    let symbols = policy.symbols();
    let numbers = primary_order(alloc, symbols, TableKind::Levels)?;
    Ok(RecordEntries::new(symbols, levels_at(alloc, symbols, &numbers)?))
}
