// Both steps: the parts of a file, and the check of their references.
ghost use Rattle.std.specs.Prelude.{◌≤◌, length};
ghost use Rattle.pol_fields.specs.declared.limits.TheConstants.{MAX_POLICY_BYTES};
ghost use Rattle.pol_file.specs.Acceptance.{Accepts};

use crate::dangling::check_references;
use crate::parts::Parts;
use crate::reading::read_parts;
use pol_cursor::{Cursor, ReadError};
use std::alloc::Global;

/// Reads the parts of a policy of at most 64 MiB. Nothing is reserved by a claimed count alone.
///
/// The error is the first fault in file order; where there is none, it is the first reference whose value no primary record
/// declares, as `Dangling`.
#[tactic(auto, unfolding(crate::specs::Acceptance::accept))]
pub fn read_file<'a>(alloc: Global, bytes: &'a [u8]) -> Result<Parts<'a>, ReadError>
    requires { length bytes.now ≤ MAX_POLICY_BYTES }
    ensures { Accepts (λ parts. parts) result bytes.now }
{
    let parts = read_parts(alloc, &mut Cursor::new(bytes))?;
    check_references(&parts)?;
    Ok(parts)
}
