//! The kind of the records of the table of users.

use crate::user_rec::UserRec;
use crate::user_view::{UserView, read_user};
use pol_cursor::{Cursor, ReadAfter, ReadError, Record, RecordView};
use pol_symtab::{Symbol, SymbolKind, TableContext};

/// The kind of users. Each of them is primary.
#[derive(Drop)]
pub struct User;

impl Record for User {
    ghost use Rattle.pol_symbols.specs.UserRecord.{user_in, HasUser};

    type Owned = UserRec;

    ghost standing = { user_in };

    ghost has = { HasUser };
}

impl<'a> RecordView<'a> for User {
    type View = UserView<'a>;

    ghost shown = { λ v. v };

    fn at(bytes: &'a [u8], place: u32) -> UserView<'a> {
        UserView::at(bytes, place)
    }
}

impl<'a> ReadAfter<'a> for User {
    ghost use Rattle.std.specs.Prelude.{true};
    ghost use Rattle.pol_symtab.specs.Claims.{claims_after};
    ghost use Rattle.pol_symbols.specs.UserRecord.{user_at};

    type Context = TableContext<'a>;

    ghost reads = { λ context. user_at context.taken context.nprim };

    ghost after = { λ context user. record context { taken = claims_after context.taken user.name true user.value } };

    fn pass(c: &mut Cursor<'a>, context: TableContext<'a>) -> Result<TableContext<'a>, ReadError> {
        let view = read_user(c, &context.taken, context.nprim)?;
        let mut context = context;
        context.taken.add(view.name(), Some(view.value()))?;
        Ok(context)
    }
}

impl SymbolKind for User {
    ghost use Rattle.pol_symbols.specs.UserRecord.{spell_user, UserFits};
    ghost use Rattle.std.specs.Prelude.{true};

    ghost name_of = { λ user. user.name };

    ghost value_of = { λ user. user.value };

    ghost is_primary = { λ user. true };

    ghost spelling = { spell_user };

    ghost fits = { UserFits };
}

impl<'a> Symbol<'a> for User {
    ghost use Rattle.std.specs.Prelude.{refl};
    ghost use Rattle.pol_symbols.specs.Inner.UserFreshness.{user_is_fresh};

    ghost nprim_of = { λ context. context.nprim };

    ghost claims_of = { λ context. context.taken };

    fn name(view: &UserView<'a>) -> &'a [u8] {
        view.name()
    }

    fn value(view: &UserView<'a>) -> u32 {
        view.value()
    }

    fn is_primary(_view: &UserView<'a>) -> bool {
        true
    }

    ghost fresh = { λ context. user_is_fresh context.taken context.nprim };

    ghost claimed = { λ context user. (refl, refl) };
}
