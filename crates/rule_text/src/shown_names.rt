//! The set of the permissions that a mask has.

ghost use Rattle.std.specs.Prelude.{◌≡◌, ◌∷◌, [], ◌++◌, ℕ, List, IfOk, OnOk};
ghost use Rattle.pol_commons.specs.declared.PermissionRec.{PermissionRec};
ghost use Rattle.rule_text.specs.Inner.ClassPermissions.{shown_text};
ghost use Rattle.rule_text.specs.Inner.ShownNames.{text_left, shown_left};

use pol_commons::PermissionView;
use std::alloc::AllocError;

/// What of the names that have come is not written yet.
#[derive(Clone, Copy)]
pub enum Unwritten<'a> {
    /// No name has come.
    Nothing,
    /// The first name.
    First(&'a [u8]),
    /// The end alone: two names or more are written, with a brace before them.
    End,
}

/// Adds those of these permissions whose bits are set in a mask, as a set of their names in the order in which they stand.
#[tactic(auto, unfolding(crate::specs::Inner::ClassPermissions::shown_text, crate::specs::Inner::ShownNames::shown_left, crate::specs::Inner::ShownNames::text_left))]
pub(crate) fn push_shown(
    buffer: &mut Vec<u8>,
    sorted: &[PermissionView<'_>],
    mask: u32,
) -> Result<(), AllocError>
    ensures { OnOk result (buffer.new.items ≡ buffer.old.items ++ shown_text mask sorted.now) }
{
    let mut unwritten = Unwritten::Nothing;
    for permission in sorted {
        unwritten = push_permission(buffer, unwritten, permission, mask)?;
    }
    push_end(buffer, unwritten)
}

// Takes the next permission, and answers what is not written yet.
#[tactic(auto, unfolding(crate::specs::Inner::ShownNames::shown_left))]
fn push_permission<'a>(
    buffer: &mut Vec<u8>,
    unwritten: Unwritten<'a>,
    permission: &PermissionView<'a>,
    mask: u32,
) -> Result<Unwritten<'a>, AllocError>
    ensures { (rest : List PermissionRec) → IfOk result (λ now. buffer.new.items ++ shown_left mask now rest ≡ buffer.old.items ++ shown_left mask unwritten.entry (permission.now ∷ rest)) }
{
    if permission.is_in(mask) {
        push_name(buffer, unwritten, permission.name())
    } else {
        Ok(unwritten)
    }
}

// Takes the next name, and answers what is not written yet.
fn push_name<'a>(
    buffer: &mut Vec<u8>,
    unwritten: Unwritten<'a>,
    name: &'a [u8],
) -> Result<Unwritten<'a>, AllocError>
    ensures { (rest : List (List ℕ)) → IfOk result (λ now. buffer.new.items ++ text_left now rest ≡ buffer.old.items ++ text_left unwritten.entry (name.now ∷ rest)) }
{
    match unwritten {
        Unwritten::Nothing => Ok(Unwritten::First(name)),
        Unwritten::First(first) => {
            buffer.extend_from_slice(b"{ ")?;
            buffer.extend_from_slice(first)?;
            buffer.push(b' ')?;
            buffer.extend_from_slice(name)?;
            Ok(Unwritten::End)
        }
        Unwritten::End => {
            buffer.push(b' ')?;
            buffer.extend_from_slice(name)?;
            Ok(Unwritten::End)
        }
    }
}

// Adds what is left where no name comes any more.
#[tactic(auto, unfolding(crate::specs::Inner::ShownNames::text_left))]
fn push_end(buffer: &mut Vec<u8>, unwritten: Unwritten<'_>) -> Result<(), AllocError>
    ensures { OnOk result (buffer.new.items ≡ buffer.old.items ++ text_left unwritten.entry []) }
{
    match unwritten {
        Unwritten::Nothing => buffer.extend_from_slice(b"{ }"),
        Unwritten::First(name) => buffer.extend_from_slice(name),
        Unwritten::End => buffer.extend_from_slice(b" }"),
    }
}
