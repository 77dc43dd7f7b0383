//! The entries of bounds of types.

ghost use Rattle.std.specs.Prelude.{◌≡◌, ◌<◌, ◌∷◌, [], ◌++◌, IfOk, OnOk, length};
ghost use Rattle.std.specs.List.{All, filter};
ghost use Rattle.info_classes.specs.RecordOrder.{records_at};
ghost use Rattle.info_classes.specs.BoundsLines.{bounds_line, is_bounded};
ghost use Rattle.diff_records.specs.BoundsEntries.{bounds_entries};

use crate::records::{ComparedRecord, RecordEntries};
use diff_entries::{Key, Part};
use diff_parts::{name_or_none, one_part, push_named, word_part};
use info_lines::primary_order;
use pol_cursor::push_name;
use pol_datums::TypeView;
use pol_fields::TableKind;
use pol_read::Policy;
use pol_symbols::Symbols;
use std::alloc::{AllocError, Global};

impl<'a> ComparedRecord for TypeView<'a> {
    ghost use Rattle.diff_records.specs.BoundsEntries.{bounds_entry};

    ghost entry = { bounds_entry };

    #[tactic(auto, unfolding(crate::specs::BoundsEntries::bounds_entry))]
    fn key(&self, alloc: Global, symbols: &Symbols<'_>) -> Result<Key, AllocError> {
        Key::of_name(alloc, self.name())
    }

    #[tactic(auto, unfolding(crate::specs::BoundsEntries::bounds_entry))]
    fn parts<'r>(
        &'r self,
        alloc: Global,
        symbols: &'r Symbols<'_>,
    ) -> Result<Vec<Part<'r>>, AllocError> {
        let part = word_part(
            alloc,
            name_or_none(symbols, TableKind::Types, self.bounds()),
        )?;
        one_part(alloc, part)
    }

    #[tactic(auto, unfolding(crate::specs::BoundsEntries::bounds_entry))]
    fn push_statement(
        &self,
        symbols: &Symbols<'_>,
        buffer: &mut Vec<u8>,
    ) -> Result<(), AllocError> {
        push_bounds(buffer, symbols, self)
    }

    #[tactic(auto, unfolding(crate::specs::BoundsEntries::bounds_entry))]
    fn push_head(&self, symbols: &Symbols<'_>, buffer: &mut Vec<u8>) -> Result<(), AllocError> {
        push_named(buffer, b"typebounds ", self.name())
    }
}

// Adds the statement of a bounded type.
#[tactic(auto, unfolding(info_classes::specs::BoundsLines::bounds_line))]
fn push_bounds(
    buffer: &mut Vec<u8>,
    symbols: &Symbols<'_>,
    child: &TypeView<'_>,
) -> Result<(), AllocError>
    ensures { OnOk result (buffer.new.items ≡ buffer.old.items ++ bounds_line symbols.now child.now) }
{
    buffer.extend_from_slice(b"typebounds ")?;
    push_name(buffer, TableKind::Types, child.bounds(), symbols)?;
    buffer.extend_from_slice(b" ")?;
    buffer.extend_from_slice(child.name())?;
    buffer.extend_from_slice(b";")
}

// The bounded types among those of these numbers.
fn bounded_among<'a>(
    alloc: Global,
    symbols: &Symbols<'a>,
    numbers: &[u32],
) -> Result<Vec<TypeView<'a>>, AllocError>
    requires { All (λ n. n < length symbols.now.types.records) numbers.now }
    ensures { IfOk result (λ types. types.items ≡ filter is_bounded (records_at symbols.now.types.records numbers.now)) }
{
    let mut types = Vec::new(alloc);
    for number in numbers {
        push_bounded(&mut types, symbols.types.view(*number))?;
    }
    Ok(types)
}

// Adds a type where it is bounded.
fn push_bounded<'a>(types: &mut Vec<TypeView<'a>>, t: TypeView<'a>) -> Result<(), AllocError>
    ensures { OnOk result (types.new.items ≡ types.old.items ++ filter is_bounded (t.entry ∷ [])) }
{
    if t.bounds() == 0 {
        return Ok(());
    }
    Ok(types.push(t)?)
}

/// The entries of the bounded types and attributes of a policy.
#[tactic(auto, unfolding(crate::specs::BoundsEntries::bounds_entries))]
pub fn bounds_entries<'p, 'a>(
    alloc: Global,
    policy: &'p Policy<'a>,
) -> Result<RecordEntries<'p, 'a, TypeView<'a>>, AllocError>
    ensures { IfOk result (λ entries. entries ≡ bounds_entries policy.now) }
{
    let symbols = policy.symbols();
    let numbers = primary_order(alloc, symbols, TableKind::Types)?;
    Ok(RecordEntries::new(symbols, bounded_among(alloc, symbols, &numbers)?))
}
