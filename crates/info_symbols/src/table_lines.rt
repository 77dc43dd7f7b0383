//! The listings of symbol tables.

ghost use Rattle.std.specs.Prelude.{◌≡◌, ◌++◌, true, IfOk, OnOk, option_map};
ghost use Rattle.info_lines.specs.Inner.Listings.{HasLine, line_of};
ghost use Rattle.info_symbols.specs.Inner.AliasLists.{AreAliases};
ghost use Rattle.info_symbols.specs.SymbolLines.{boolean_statement, state_word, symbol_lines, symbol_statements};
ghost use Rattle.info_symbols.specs.SymbolListings.{symbol_listing};

use crate::aliases::Aliases;
use crate::class_texts::{push_class, push_common};
use crate::mls_texts::{push_category, push_sensitivity};
use crate::role_text::push_role;
use crate::user_text::push_user;
use info_lines::{LineText, NumberedLines, numbers_listed};
use pol_datums::BooleanView;
use pol_fields::TableKind;
use pol_symbols::Symbols;
use std::alloc::{AllocError, Global};
use std::marker::Model;

/// The lines of the records of a table, by their numbers. Contracts see those of all records, in the order of the table's list.
#[derive(Drop)]
pub struct SymbolLines<'p, 'a> {
    symbols: &'p Symbols<'a>,
    table: TableKind,
    expand: bool,
    // The aliases of the table, where its records are expanded.
    aliases: Aliases<'a>,
}

impl<'p, 'a> Model for SymbolLines<'p, 'a> {
    ghost use Rattle.std.specs.Prelude.{ℕ, List};
    ghost use Rattle.info_symbols.specs.Inner.AliasLists.{AreAliases};
    ghost use Rattle.info_symbols.specs.SymbolLines.{symbol_lines};

    ghost Value = { List (List ℕ) };

    ghost view = { λ lines. symbol_lines lines.symbols.now lines.table lines.expand };

    ghost invariant = { λ lines. AreAliases lines.expand lines.symbols.now lines.table lines.aliases };
}

impl<'p, 'a> SymbolLines<'p, 'a> {
    /// The lines of a table of these symbols, plain or expanded.
    pub fn new(
        alloc: Global,
        symbols: &'p Symbols<'a>,
        table: TableKind,
        expand: bool,
    ) -> Result<SymbolLines<'p, 'a>, AllocError>
        ensures { IfOk result (λ lines. lines ≡ symbol_lines symbols.now table expand) }
    {
        let aliases = Aliases::new(alloc, symbols, table, expand)?;
        Ok(SymbolLines {
            symbols,
            table,
            expand,
            aliases,
        })
    }
}

impl<'p, 'a> LineText for SymbolLines<'p, 'a> {
    ghost has = { HasLine };

    ghost text = { line_of };

    #[tactic(auto, using(crate::proofs::Listed::has_record, crate::proofs::Listed::has_statement, crate::proofs::Listed::name_at, crate::proofs::Listed::statement_at))]
    fn push_text(&self, number: u32, buffer: &mut Vec<u8>) -> Result<(), AllocError> {
        if self.expand {
            push_statement(buffer, self.symbols, self.table, number, &self.aliases)
        } else {
            buffer.extend_from_slice(self.symbols.record_name(self.table, number))
        }
    }
}

// Adds the statement of the record of that number, with the aliases of its table.
#[tactic(auto, using(info_lines::proofs::ListingLines::line_at))]
fn push_statement(
    buffer: &mut Vec<u8>,
    symbols: &Symbols<'_>,
    table: TableKind,
    number: u32,
    aliases: &Aliases<'_>,
) -> Result<(), AllocError>
    requires there { HasLine (symbol_statements symbols.now table) number }
    requires aliases { AreAliases true symbols.now table aliases.now }
    ensures { OnOk result (buffer.new.items ≡ buffer.old.items ++ line_of (symbol_statements symbols.now table) number) }
{
    match table {
        TableKind::Commons => push_common(buffer, &symbols.commons.view(number)),
        TableKind::Classes => push_class(buffer, &symbols.classes.view(number)),
        TableKind::Roles => push_role(buffer, symbols, &symbols.roles.view(number)),
        TableKind::Types => buffer.extend_from_slice(symbols.types.view(number).name()),
        TableKind::Users => push_user(buffer, symbols, &symbols.users.view(number)),
        TableKind::Booleans => push_boolean(buffer, &symbols.booleans.view(number)),
        TableKind::Levels => {
            push_sensitivity(buffer, symbols, aliases, &symbols.levels.view(number))
        }
        TableKind::Categories => {
            push_category(buffer, symbols, aliases, &symbols.categories.view(number))
        }
    }
}

// Adds the statement of a boolean.
#[tactic(auto, unfolding(crate::specs::SymbolLines::boolean_statement))]
fn push_boolean(buffer: &mut Vec<u8>, boolean: &BooleanView<'_>) -> Result<(), AllocError>
    ensures { OnOk result (buffer.new.items ≡ buffer.old.items ++ boolean_statement boolean.now.value) }
{
    buffer.extend_from_slice(b"bool ")?;
    buffer.extend_from_slice(boolean.name())?;
    buffer.extend_from_slice(b" ")?;
    buffer.extend_from_slice(state_word(boolean.state()))?;
    buffer.extend_from_slice(b";")
}

/// The word of the state of a boolean.
pub fn state_word(state: u32) -> &'static [u8]
    ensures { result.now ≡ state_word state }
{
    if state == 1 { b"true" } else { b"false" }
}

/// The lines of the primary records of a table, in the order of their names, or where a name is given, of the one that it finds.
/// `None` exactly where it finds none.
#[tactic(auto, using(crate::proofs::Listed::listed, crate::proofs::Listed::none_listed, crate::proofs::Listed::have_lines))]
pub fn symbol_lines<'p, 'a>(
    alloc: Global,
    symbols: &'p Symbols<'a>,
    table: TableKind,
    expand: bool,
    name: Option<&[u8]>,
) -> Result<Option<NumberedLines<SymbolLines<'p, 'a>>>, AllocError>
    ensures { IfOk result (λ lines. lines ≡ symbol_listing symbols.now table expand (option_map (λ name. name.now) name.entry)) }
{
    let Some(numbers) = numbers_listed(alloc, symbols, table, name)? else {
        return Ok(None);
    };
    let lines = SymbolLines::new(alloc, symbols, table, expand)?;
    Ok(Some(NumberedLines::new(lines, numbers)))
}
