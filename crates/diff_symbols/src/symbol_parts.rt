//! The parts of commons, roles, users and booleans.

ghost use Rattle.std.specs.Prelude.{◌≡◌, ◌<◌, IfOk, length};
ghost use Rattle.pol_symbols.specs.PolicySymbols.{count_in};
ghost use Rattle.pol_fields.specs.declared.TableKind.TheVariants.{Booleans, Commons, Roles, Users};
ghost use Rattle.diff_symbols.specs.SymbolEntries.{parts_of_number};

use diff_entries::{Label, Part};
use diff_parts::{level_part, names_part, one_part, range_part, word_part};
use info_lines::names_of_bits;
use info_symbols::{permission_names, state_word};
use pol_fields::TableKind;
use pol_symbols::Symbols;
use std::alloc::{AllocError, Global};

/// The parts of the record of a number.
pub(crate) fn parts_of_number<'a>(
    alloc: Global,
    symbols: &Symbols<'a>,
    table: TableKind,
    number: u32,
) -> Result<Vec<Part<'a>>, AllocError>
    requires { number < count_in symbols.now table }
    ensures { IfOk result (λ parts. parts.items ≡ parts_of_number symbols.now table number) }
{
    match table {
        TableKind::Commons => common_parts(alloc, symbols, number),
        TableKind::Roles => role_parts(alloc, symbols, number),
        TableKind::Users => user_parts(alloc, symbols, number),
        TableKind::Booleans => boolean_parts(alloc, symbols, number),
        _ => Ok(Vec::new(alloc)),
    }
}

// The permissions of the common of a number.
#[tactic(auto, using(crate::proofs::RecordTexts::mapped_at))]
fn common_parts<'a>(
    alloc: Global,
    symbols: &Symbols<'a>,
    number: u32,
) -> Result<Vec<Part<'a>>, AllocError>
    requires { number < length symbols.now.commons.records }
    ensures { IfOk result (λ parts. parts.items ≡ parts_of_number symbols.now Commons number) }
{
    let names = permission_names(alloc, symbols.commons.view(number).permissions())?;
    one_part(alloc, names_part(Label::Unnamed, names))
}

// The types of the role of a number.
#[tactic(auto, using(crate::proofs::RecordTexts::mapped_at))]
fn role_parts<'a>(
    alloc: Global,
    symbols: &Symbols<'a>,
    number: u32,
) -> Result<Vec<Part<'a>>, AllocError>
    requires { number < length symbols.now.roles.records }
    ensures { IfOk result (λ parts. parts.items ≡ parts_of_number symbols.now Roles number) }
{
    let role = symbols.roles.view(number);
    let types = names_of_bits(alloc, symbols, TableKind::Types, &role.types())?;
    one_part(alloc, names_part(Label::Types, types))
}

// The roles of the user of a number, its level and its range.
#[tactic(auto, using(crate::proofs::RecordTexts::mapped_at))]
fn user_parts<'a>(
    alloc: Global,
    symbols: &Symbols<'a>,
    number: u32,
) -> Result<Vec<Part<'a>>, AllocError>
    requires { number < length symbols.now.users.records }
    ensures { IfOk result (λ parts. parts.items ≡ parts_of_number symbols.now Users number) }
{
    let user = symbols.users.view(number);
    let roles = names_of_bits(alloc, symbols, TableKind::Roles, &user.roles())?;
    let level = level_part(alloc, symbols, &user.level())?;
    let range = range_part(alloc, symbols, &user.range())?;
    let mut parts = one_part(alloc, names_part(Label::Roles, roles))?;
    parts.push(level)?;
    parts.push(range)?;
    Ok(parts)
}

// The state of the boolean of a number.
#[tactic(auto, using(crate::proofs::RecordTexts::mapped_at))]
fn boolean_parts<'a>(
    alloc: Global,
    symbols: &Symbols<'a>,
    number: u32,
) -> Result<Vec<Part<'a>>, AllocError>
    requires { number < length symbols.now.booleans.records }
    ensures { IfOk result (λ parts. parts.items ≡ parts_of_number symbols.now Booleans number) }
{
    let state: &'a [u8] = state_word(symbols.booleans.view(number).state());
    let part = word_part(alloc, state)?;
    one_part(alloc, part)
}
