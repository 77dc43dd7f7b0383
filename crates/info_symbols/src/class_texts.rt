//! The statements of classes and commons.

ghost use Rattle.std.specs.Prelude.{◌≡◌, ◌++◌, OnOk};
ghost use Rattle.info_symbols.specs.ClassLines.{class_statement, common_statement, inherits_text, own_text};

use crate::permission_sets::push_permissions;
use pol_classes::ClassView;
use pol_commons::{CommonView, PermissionList};
use std::alloc::AllocError;

/// Adds the statement of a class.
#[tactic(auto, unfolding(crate::specs::ClassLines::class_statement))]
pub(crate) fn push_class(buffer: &mut Vec<u8>, class: &ClassView<'_>) -> Result<(), AllocError>
    ensures { OnOk result (buffer.new.items ≡ buffer.old.items ++ class_statement class.now.value) }
{
    buffer.extend_from_slice(b"class ")?;
    buffer.extend_from_slice(class.name())?;
    push_inherits(buffer, class.common())?;
    push_own(buffer, class.permissions())
}

// Adds the common of a class, where it has one.
fn push_inherits(buffer: &mut Vec<u8>, common: &[u8]) -> Result<(), AllocError>
    ensures { OnOk result (buffer.new.items ≡ buffer.old.items ++ inherits_text common.now) }
{
    if common.len() == 0 {
        return Ok(());
    }
    buffer.extend_from_slice(b" inherits ")?;
    buffer.extend_from_slice(common)
}

// Adds the permissions of a class, where it has some.
fn push_own(buffer: &mut Vec<u8>, permissions: PermissionList<'_>) -> Result<(), AllocError>
    ensures { OnOk result (buffer.new.items ≡ buffer.old.items ++ own_text permissions.entry) }
{
    if permissions.len() == 0 {
        return Ok(());
    }
    buffer.extend_from_slice(b" ")?;
    push_permissions(buffer, permissions)
}

/// Adds the statement of a common.
#[tactic(auto, unfolding(crate::specs::ClassLines::common_statement))]
pub(crate) fn push_common(buffer: &mut Vec<u8>, common: &CommonView<'_>) -> Result<(), AllocError>
    ensures { OnOk result (buffer.new.items ≡ buffer.old.items ++ common_statement common.now.value) }
{
    buffer.extend_from_slice(b"common ")?;
    buffer.extend_from_slice(common.name())?;
    buffer.extend_from_slice(b" ")?;
    push_permissions(buffer, common.permissions())
}
