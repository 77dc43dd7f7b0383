//! The statements of roles.

ghost use Rattle.std.specs.Prelude.{◌≡◌, ◌++◌, OnOk, map};
ghost use Rattle.info_symbols.specs.RoleLines.{role_statement, types_text};

use info_lines::{names_of_bits, push_set};
use pol_datums::RoleView;
use pol_fields::TableKind;
use pol_symbols::Symbols;
use std::alloc::AllocError;

/// Adds the statement of a role.
#[tactic(auto, unfolding(crate::specs::RoleLines::role_statement))]
pub(crate) fn push_role(
    buffer: &mut Vec<u8>,
    symbols: &Symbols<'_>,
    role: &RoleView<'_>,
) -> Result<(), AllocError>
    ensures { OnOk result (buffer.new.items ≡ buffer.old.items ++ role_statement symbols.now role.now.value) }
{
    let types = names_of_bits(
        *buffer.allocator(),
        symbols,
        TableKind::Types,
        &role.types(),
    )?;
    buffer.extend_from_slice(b"role ")?;
    buffer.extend_from_slice(role.name())?;
    push_types(buffer, &types)?;
    buffer.extend_from_slice(b";")
}

// Adds the names of the types of a role, where it has some.
fn push_types(buffer: &mut Vec<u8>, types: &[&[u8]]) -> Result<(), AllocError>
    ensures { OnOk result (buffer.new.items ≡ buffer.old.items ++ types_text (map (λ name. name.now) types.now)) }
{
    if types.is_empty() {
        return Ok(());
    }
    buffer.extend_from_slice(b" types ")?;
    push_set(buffer, types)
}
