//! The table of commons, and what classes inherit from one.

ghost use Rattle.std.specs.Prelude.{◌≡◌};
ghost use Rattle.pol_cursor.specs.Outcome.{Yields};
ghost use Rattle.pol_commons.specs.CommonTable.{commons_at, common_named, inherited_from};

use crate::common_view::CommonView;
use crate::kind::Common;
use crate::permission_list::PermissionList;
use pol_cursor::{Cursor, ReadError};
use pol_symtab::{SymbolTable, read_whole_table};
use std::alloc::Global;

/// The table of commons.
pub type CommonList<'a> = SymbolTable<'a, Common>;

/// Reads the table of commons. Nothing is reserved by the number of commons that the policy claims.
#[tactic(auto, unfolding(crate::specs::CommonTable::commons_at))]
pub fn read_commons<'a>(alloc: Global, c: &mut Cursor<'a>) -> Result<CommonList<'a>, ReadError>
    ensures { Yields (λ commons. commons) result commons_at c.old c.new }
{
    read_whole_table(alloc, c)
}

/// The common of a name.
#[tactic(auto, using(crate::proofs::CommonSearch::common_within, crate::proofs::CommonSearch::common_at_index, crate::proofs::CommonSearch::no_common))]
pub fn find_common<'a>(commons: &CommonList<'a>, name: &[u8]) -> Option<CommonView<'a>>
    ensures { result ≡ common_named commons.now name.now }
{
    match commons.index_by_name(name) {
        Some(i) => Some(commons.view(i)),
        None => None,
    }
}

/// The permissions of the common of a name, or none where no common has it.
pub fn inherited_from<'a>(commons: &CommonList<'a>, name: &[u8]) -> PermissionList<'a>
    ensures { result ≡ inherited_from commons.now name.now }
{
    match find_common(commons, name) {
        Some(common) => common.permissions(),
        None => PermissionList::empty(),
    }
}
