//! The statements of users.

ghost use Rattle.std.specs.Prelude.{◌≡◌, ◌++◌, OnOk};
ghost use Rattle.info_symbols.specs.UserLines.{user_statement, roles_text, levels_text};

use info_lines::{names_of_bits, push_set};
use pol_fields::TableKind;
use pol_mls::{level_text, range_text};
use pol_symbols::{Symbols, UserView};
use std::alloc::AllocError;

/// Adds the statement of a user.
#[tactic(auto, unfolding(crate::specs::UserLines::user_statement))]
pub(crate) fn push_user(
    buffer: &mut Vec<u8>,
    symbols: &Symbols<'_>,
    user: &UserView<'_>,
) -> Result<(), AllocError>
    ensures { OnOk result (buffer.new.items ≡ buffer.old.items ++ user_statement symbols.now user.now.value) }
{
    buffer.extend_from_slice(b"user ")?;
    buffer.extend_from_slice(user.name())?;
    push_roles(buffer, symbols, user)?;
    push_levels(buffer, symbols, user)?;
    buffer.extend_from_slice(b";")
}

// Adds the names of the roles of a user.
fn push_roles(
    buffer: &mut Vec<u8>,
    symbols: &Symbols<'_>,
    user: &UserView<'_>,
) -> Result<(), AllocError>
    ensures { OnOk result (buffer.new.items ≡ buffer.old.items ++ roles_text symbols.now user.now.value) }
{
    let roles = names_of_bits(
        *buffer.allocator(),
        symbols,
        TableKind::Roles,
        &user.roles(),
    )?;
    buffer.extend_from_slice(b" roles ")?;
    push_set(buffer, &roles)
}

// Adds the default level of a user, and the levels that it may have.
fn push_levels(
    buffer: &mut Vec<u8>,
    symbols: &Symbols<'_>,
    user: &UserView<'_>,
) -> Result<(), AllocError>
    ensures { OnOk result (buffer.new.items ≡ buffer.old.items ++ levels_text symbols.now user.now.value) }
{
    let alloc = *buffer.allocator();
    let level = user.level();
    let default = level_text(alloc, level.sens(), &level.categories(), symbols)?;
    let range = range_text(alloc, &user.range(), symbols)?;
    buffer.extend_from_slice(b" level ")?;
    buffer.extend_from_slice(&default)?;
    buffer.extend_from_slice(b" range ")?;
    buffer.extend_from_slice(&range)
}
