//! The names, values and beginnings of statements of records, by their numbers.

ghost use Rattle.std.specs.Prelude.{◌≡◌, ◌∷◌, [], ◌<◌, ◌++◌, IfOk, OnOk};
ghost use Rattle.pol_symbols.specs.PolicySymbols.{count_in};
ghost use Rattle.diff_symbols.specs.SymbolEntries.{declaring_word, name_at, symbol_head, value_at};

use diff_entries::Key;
use pol_fields::TableKind;
use pol_symbols::Symbols;
use std::alloc::{AllocError, Global};

/// The name of the record of a number.
#[tactic(auto, using(crate::proofs::RecordTexts::found_at))]
pub(crate) fn name_at<'a>(symbols: &Symbols<'a>, table: TableKind, number: u32) -> &'a [u8]
    requires { number < count_in symbols.now table }
    ensures { result.now ≡ name_at symbols.now table number }
{
    symbols.record_name(table, number)
}

/// The value that it names.
#[tactic(auto, using(crate::proofs::RecordTexts::found_at))]
pub(crate) fn value_at(symbols: &Symbols<'_>, table: TableKind, number: u32) -> u32
    requires { number < count_in symbols.now table }
    ensures { result ≡ value_at symbols.now table number }
{
    symbols.record_value(table, number)
}

/// The key that is its name.
pub(crate) fn name_key(
    alloc: Global,
    symbols: &Symbols<'_>,
    table: TableKind,
    number: u32,
) -> Result<Key, AllocError>
    requires { number < count_in symbols.now table }
    ensures { IfOk result (λ key. key ≡ name_at symbols.now table number ∷ []) }
{
    Key::of_name(alloc, name_at(symbols, table, number))
}

// The word that declares a symbol of a table, with the space behind it.
fn declaring_word(table: TableKind) -> &'static [u8]
    ensures { result.now ≡ declaring_word table }
{
    match table {
        TableKind::Commons => b"common ",
        TableKind::Classes => b"class ",
        TableKind::Roles => b"role ",
        TableKind::Types => b"type ",
        TableKind::Users => b"user ",
        TableKind::Booleans => b"bool ",
        TableKind::Levels => b"sensitivity ",
        TableKind::Categories => b"category ",
    }
}

/// Adds the beginning of its statement.
pub(crate) fn push_symbol_head(
    buffer: &mut Vec<u8>,
    symbols: &Symbols<'_>,
    table: TableKind,
    number: u32,
) -> Result<(), AllocError>
    requires { number < count_in symbols.now table }
    ensures { OnOk result (buffer.new.items ≡ buffer.old.items ++ symbol_head symbols.now table number) }
{
    buffer.extend_from_slice(declaring_word(table))?;
    buffer.extend_from_slice(name_at(symbols, table, number))
}
