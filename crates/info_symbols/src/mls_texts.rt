//! The statements of sensitivities and categories.

ghost use Rattle.std.specs.Prelude.{◌≡◌, ◌++◌, true, OnOk};
ghost use Rattle.pol_fields.specs.declared.TableKind.TheVariants.{Levels, Categories};
ghost use Rattle.info_symbols.specs.Inner.AliasLists.{AreAliases};
ghost use Rattle.info_symbols.specs.MlsLines.{category_statement, level_part, sensitivity_statement};

use crate::aliases::{Aliases, push_aliases};
use pol_datums::{CategoryView, SensitivityView};
use pol_mls::level_text;
use pol_symbols::Symbols;
use std::alloc::AllocError;

/// Adds the statement of a sensitivity, with the aliases of its table.
#[tactic(auto, unfolding(crate::specs::MlsLines::sensitivity_statement))]
pub(crate) fn push_sensitivity(
    buffer: &mut Vec<u8>,
    symbols: &Symbols<'_>,
    aliases: &Aliases<'_>,
    level: &SensitivityView<'_>,
) -> Result<(), AllocError>
    requires { AreAliases true symbols.now Levels aliases.now }
    ensures { OnOk result (buffer.new.items ≡ buffer.old.items ++ sensitivity_statement symbols.now level.now.value) }
{
    buffer.extend_from_slice(b"sensitivity ")?;
    buffer.extend_from_slice(level.name())?;
    push_aliases(buffer, aliases, level.sens())?;
    push_level_part(buffer, symbols, level)
}

// Adds what is said of a sensitivity behind its declaration.
#[tactic(auto, unfolding(crate::specs::MlsLines::level_part))]
fn push_level_part(
    buffer: &mut Vec<u8>,
    symbols: &Symbols<'_>,
    level: &SensitivityView<'_>,
) -> Result<(), AllocError>
    ensures { OnOk result (buffer.new.items ≡ buffer.old.items ++ level_part symbols.now level.now.value) }
{
    let alloc = *buffer.allocator();
    let text = level_text(alloc, level.sens(), &level.categories(), symbols)?;
    buffer.extend_from_slice(b"; level ")?;
    buffer.extend_from_slice(&text)?;
    buffer.extend_from_slice(b";")
}

/// Adds the statement of a category, with the aliases of its table.
#[tactic(auto, unfolding(crate::specs::MlsLines::category_statement))]
pub(crate) fn push_category(
    buffer: &mut Vec<u8>,
    symbols: &Symbols<'_>,
    aliases: &Aliases<'_>,
    category: &CategoryView<'_>,
) -> Result<(), AllocError>
    requires { AreAliases true symbols.now Categories aliases.now }
    ensures { OnOk result (buffer.new.items ≡ buffer.old.items ++ category_statement symbols.now category.now.value) }
{
    buffer.extend_from_slice(b"category ")?;
    buffer.extend_from_slice(category.name())?;
    push_aliases(buffer, aliases, category.value())?;
    buffer.extend_from_slice(b";")
}
