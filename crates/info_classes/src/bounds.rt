//! The listing of the bounds of types.

ghost use Rattle.std.specs.Prelude.{◌≡◌, ◌<◌, ◌∷◌, [], ◌++◌, IfOk, OnOk, length};
ghost use Rattle.std.specs.List.{All, filter};
ghost use Rattle.info_classes.specs.RecordOrder.{records_at, types_in_order};
ghost use Rattle.info_classes.specs.BoundsLines.{is_bounded, bounds_line, bounds_listing};

use info_lines::{EntryLines, EntryText, primary_order};
use pol_cursor::push_name;
use pol_datums::TypeView;
use pol_fields::TableKind;
use pol_read::Policy;
use pol_symbols::Symbols;
use std::alloc::{AllocError, Global};
use std::marker::Model;

/// The lines of bounded types, by their numbers. Contracts see all of them.
#[derive(Drop)]
pub struct BoundsLines<'p, 'a> {
    symbols: &'p Symbols<'a>,
    types: Vec<TypeView<'a>>,
}

impl<'p, 'a> Model for BoundsLines<'p, 'a> {
    ghost use Rattle.std.specs.Prelude.{ℕ, List, map};
    ghost use Rattle.info_classes.specs.BoundsLines.{bounds_line};

    ghost Value = { List (List ℕ) };

    ghost view = { λ l. map (bounds_line l.symbols.now) l.types.items };
}

impl<'p, 'a> BoundsLines<'p, 'a> {
    // The bounds of all bounded types.
    #[tactic(auto, unfolding(crate::specs::BoundsLines::bounds_listing))]
    fn new(alloc: Global, symbols: &'p Symbols<'a>) -> Result<BoundsLines<'p, 'a>, AllocError>
        ensures { IfOk result (λ lines. lines ≡ bounds_listing symbols.now) }
    {
        Ok(BoundsLines {
            symbols,
            types: bounded_types(alloc, symbols)?,
        })
    }
}

impl<'p, 'a> EntryText for BoundsLines<'p, 'a> {
    ghost lines = { λ lines. lines };

    fn len(&self) -> usize {
        self.types.len()
    }

    #[tactic(auto, using(info_lines::proofs::ListingLines::line_at))]
    fn push_text(&self, number: usize, buffer: &mut Vec<u8>) -> Result<(), AllocError> {
        push_bounds(buffer, self.symbols, &self.types[number])
    }
}

// Adds the line of a bounded type.
#[tactic(auto, unfolding(crate::specs::BoundsLines::bounds_line))]
fn push_bounds(
    buffer: &mut Vec<u8>,
    symbols: &Symbols<'_>,
    t: &TypeView<'_>,
) -> Result<(), AllocError>
    ensures { OnOk result (buffer.new.items ≡ buffer.old.items ++ bounds_line symbols.now t.now) }
{
    buffer.extend_from_slice(b"typebounds ")?;
    push_name(buffer, TableKind::Types, t.bounds(), symbols)?;
    buffer.extend_from_slice(b" ")?;
    buffer.extend_from_slice(t.name())?;
    buffer.extend_from_slice(b";")
}

// The types and attributes that are bounded, in the order of their names.
fn bounded_types<'a>(alloc: Global, symbols: &Symbols<'a>) -> Result<Vec<TypeView<'a>>, AllocError>
    ensures { IfOk result (λ types. types.items ≡ filter is_bounded (types_in_order symbols.now)) }
{
    let numbers = primary_order(alloc, symbols, TableKind::Types)?;
    bounded_among(alloc, symbols, &numbers)
}

// The bounded types among the records of these numbers.
fn bounded_among<'a>(
    alloc: Global,
    symbols: &Symbols<'a>,
    numbers: &[u32],
) -> Result<Vec<TypeView<'a>>, AllocError>
    requires { All (λ n. n < length symbols.now.types.records) numbers.now }
    ensures { IfOk result (λ types. types.items ≡ filter is_bounded (records_at symbols.now.types.records numbers.now)) }
{
    let mut types = Vec::new(alloc);
    for number in numbers {
        push_bounded(&mut types, symbols.types.view(*number))?;
    }
    Ok(types)
}

// Adds a type where it is bounded.
fn push_bounded<'a>(types: &mut Vec<TypeView<'a>>, t: TypeView<'a>) -> Result<(), AllocError>
    ensures { OnOk result (types.new.items ≡ types.old.items ++ filter is_bounded (t.entry ∷ [])) }
{
    if t.bounds() == 0 {
        return Ok(());
    }
    Ok(types.push(t)?)
}

/// The bounded types and attributes, in the order of their names.
pub fn bounds_lines<'p, 'a>(
    alloc: Global,
    policy: &'p Policy<'a>,
) -> Result<EntryLines<BoundsLines<'p, 'a>>, AllocError>
    ensures { IfOk result (λ lines. lines ≡ bounds_listing policy.now.symbols) }
{
    Ok(EntryLines::new(BoundsLines::new(alloc, policy.symbols())?))
}
