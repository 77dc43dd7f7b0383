//! A user in the buffer, and how it is read.

ghost use Rattle.std.specs.Prelude.{◌≡◌, ◌+◌, ◌≤◌, IfOk, length};
ghost use Rattle.pol_cursor.specs.Outcome.{Answers};
ghost use Rattle.pol_cursor.specs.References.{dangling_of};
ghost use Rattle.pol_symbols.specs.UserRecord.{user_at, user_in, HasUser, roles_in_place, range_in_place, range_place, level_place, level_mentions};

use crate::user_kind::User;
use crate::user_rec::UserRec;
use pol_bitmap::{BitmapView, Set};
use pol_cursor::{ByteList, Copied, Cursor, Mention, Names, Referring, string_in, u32_in};
use pol_datums::{dangling_bounds, read_bounds, read_new_value};
use pol_fields::fields::{USER_BOUNDS, USER_LEN, USER_NAME, USER_VALUE};
use pol_fields::{Fault, TableKind};
use pol_mls::{LevelView, RangeView, read_level, read_range};
use pol_symtab::{Taken, read_symbol_length, read_symbol_name};
use std::alloc::{AllocError, Global};
use std::marker::Model;

/// A user in the buffer.
#[derive(Drop)]
pub struct UserView<'a> {
    bytes: &'a [u8],
    place: u32,
}

impl<'a> Model for UserView<'a> {
    ghost use Rattle.pol_cursor.specs.References.{Placed};
    ghost use Rattle.pol_symbols.specs.declared.user_rec.UserRec.{UserRec};
    ghost use Rattle.pol_symbols.specs.UserRecord.{user_in, HasUser};

    ghost Value = { Placed UserRec };

    ghost view = { λ v. record { place = v.place; value = user_in v.bytes.now v.place } };

    ghost invariant = { λ v. HasUser v.bytes.now v.place };
}

impl<'a> UserView<'a> {
    /// The user at a place that has one.
    pub fn at(bytes: &'a [u8], place: u32) -> UserView<'a>
        requires { HasUser bytes.now place }
        ensures { result ≡ record { place = place; value = user_in bytes.now place } }
    {
        UserView { bytes, place }
    }

    /// The value of the user.
    pub fn value(&self) -> u32
        ensures { result ≡ self.now.value.value }
    {
        u32_in(self.bytes, self.place as usize + 4)
    }

    /// The value of the user that bounds it, or 0.
    pub fn bounds(&self) -> u32
        ensures { result ≡ self.now.value.bounds }
    {
        u32_in(self.bytes, self.place as usize + 8)
    }

    /// The name of the user.
    pub fn name(&self) -> &'a [u8]
        ensures { result.now ≡ self.now.value.name }
    {
        let len = u32_in(self.bytes, self.place as usize);
        string_in(self.bytes, self.place as usize + 12, len as usize)
    }

    /// The roles of the user: bit v - 1 stands for the value v.
    pub fn roles(&self) -> BitmapView<'a>
        ensures { result ≡ self.now.value.roles }
    {
        BitmapView::at(self.bytes, roles_in_place(self.bytes, self.place))
    }

    /// The levels that it may have.
    #[tactic(auto, using(pol_cursor::proofs::Facts::length_part, pol_bitmap::proofs::NodePlaces::length_nodes_in))]
    pub fn range(&self) -> RangeView<'a>
        ensures { result ≡ record { place = range_place self.now; value = self.now.value.range } }
    {
        RangeView::at(self.bytes, range_in_place(self.bytes, self.place))
    }

    /// The level that it has by default.
    #[tactic(auto, using(pol_cursor::proofs::Facts::length_part, pol_mls::proofs::RangePlaces::range_ends, pol_bitmap::proofs::NodePlaces::length_nodes_in))]
    pub fn level(&self) -> LevelView<'a>
        ensures { result ≡ record { place = level_place self.now; value = self.now.value.level } }
    {
        let place = range_in_place(self.bytes, self.place) + self.range().size();
        LevelView::at(self.bytes, place)
    }

    #[tactic(auto, using(pol_cursor::proofs::DanglingLists::dangling_none, pol_cursor::proofs::DanglingLists::undeclared_first))]
    fn dangling_levels<N: Names>(&self, names: &N) -> Option<Fault>
        ensures { result ≡ dangling_of (N.named names.now) (level_mentions self.now) }
    {
        match self.range().dangling(names) {
            Some(fault) => Some(fault),
            None => self.level().dangling(names),
        }
    }
}

impl<'a> Referring<'a> for User {
    ghost use Rattle.pol_symbols.specs.UserRecord.{user_references};

    ghost references = { user_references };

    /// The first reference, in file order, whose value no primary record declares, as a fault at its field: the user that
    /// bounds it, and the sensitivities of its range and of its level.
    fn dangling<N: Names>(view: &UserView<'a>, names: &N) -> Option<Fault> {
        let bounds = Mention::new(USER_BOUNDS, view.place + 8, TableKind::Users, view.bounds());
        match dangling_bounds(names, bounds) {
            Some(fault) => Some(fault),
            None => view.dangling_levels(names),
        }
    }
}

impl<'a> Copied<'a> for User {
    fn rec(view: &UserView<'a>, alloc: Global) -> Result<UserRec, AllocError> {
        Ok(UserRec {
            value: view.value(),
            bounds: view.bounds(),
            name: ByteList::copy_of(alloc, view.name())?,
            roles: Set::from_view(alloc, &view.roles())?,
            range: view.range().rec(alloc)?,
            level: view.level().rec(alloc)?,
        })
    }
}

// The place of the roles, behind the name of the user there.
fn roles_in_place(bytes: &[u8], place: u32) -> u32
    requires { HasUser bytes.now place }
    ensures { result ≡ roles_in_place bytes.now place }
{
    place + 12 + u32_in(bytes, place as usize)
}

// The place of the range, behind the roles of the user there.
#[tactic(auto, using(pol_bitmap::proofs::NodePlaces::length_nodes_in))]
fn range_in_place(bytes: &[u8], place: u32) -> u32
    requires { HasUser bytes.now place }
    ensures { result ≡ range_in_place bytes.now place }
{
    let roles = roles_in_place(bytes, place);
    roles + BitmapView::at(bytes, roles).size()
}

/// The user at the cursor, which then stands behind it, under what the records before it in the table have taken. Takes no
/// memory. `EmptyName`, `ValueOut`, `DuplicateValue`, `BadNameByte`, `DuplicateName`, `BadRange` or a fault of a bitmap.
#[tactic(auto, unfolding(crate::specs::UserRecord::user_at))]
pub fn read_user<'a>(
    c: &mut Cursor<'a>,
    taken: &Taken<'a>,
    nprim: u32,
) -> Result<UserView<'a>, Fault>
    ensures exact { Answers (λ user. user.value) result (user_at taken.now nprim) c.old c.new }
    ensures stands { IfOk result (λ user. HasUser c.old.bytes c.old.place × (user ≡ record { place = c.old.place; value = user_in c.old.bytes c.old.place })) }
{
    let bytes = c.bytes();
    let place = c.place();
    let len = read_symbol_length(c, USER_LEN)?;
    read_new_value(c, USER_VALUE, nprim, taken)?;
    read_bounds(c, USER_BOUNDS)?;
    read_symbol_name(c, USER_NAME, len, taken)?;
    BitmapView::read(c)?;
    read_range(c)?;
    read_level(c)?;
    Ok(UserView { bytes, place })
}
