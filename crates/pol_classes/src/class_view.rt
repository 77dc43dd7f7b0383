//! A class in the buffer, and how it is read.

ghost use Rattle.std.specs.Prelude.{◌≡◌, ◌≤◌, ◌+◌, IfOk, OnOk, length};
ghost use Rattle.pol_fields.specs.declared.limits.TheConstants.{MAX_POLICY_BYTES};
ghost use Rattle.pol_cursor.specs.Outcome.{Answers};
ghost use Rattle.pol_cursor.specs.Parts.{num};
ghost use Rattle.pol_classes.specs.ClassRecord.{default_at, class_at, class_in, constraints_place, validatetrans_place, defaults_place, HasClass};

use crate::causes::default_cause;
use crate::class_head::{HeadView, head_end, read_head};
use crate::class_kind::Class;
use crate::class_rec::ClassRec;
use crate::constraint_list::{ConstraintList, constraints_end, pass_constraints};
use pol_commons::{CommonList, PermissionList, inherited_from, permissions_end, read_permissions};
use pol_cursor::{ByteList, Copied, Cursor, refuse, u32_in};
use pol_fields::fields::{
    CLASS_DEFAULT_RANGE, CLASS_DEFAULT_ROLE, CLASS_DEFAULT_TYPE, CLASS_DEFAULT_USER, CLASS_NVALID,
};
use pol_fields::{Fault, Field};
use pol_symtab::Taken;
use std::alloc::{AllocError, Global};
use std::marker::Model;

/// A class of objects in the buffer.
#[derive(Drop)]
pub struct ClassView<'a> {
    bytes: &'a [u8],
    place: u32,
    version: u32,
}

impl<'a> Model for ClassView<'a> {
    ghost use Rattle.pol_cursor.specs.References.{Placed};
    ghost use Rattle.pol_classes.specs.declared.class_rec.ClassRec.{ClassRec};
    ghost use Rattle.pol_classes.specs.ClassRecord.{class_in, HasClass};

    ghost Value = { Placed ClassRec };

    ghost view = { λ v. record { place = v.place; value = class_in v.version v.bytes.now v.place } };

    ghost invariant = { λ v. HasClass v.version v.bytes.now v.place };
}

impl<'a> ClassView<'a> {
    /// The class of a policy of that version at a place that has one.
    pub fn at(bytes: &'a [u8], place: u32, version: u32) -> ClassView<'a>
        requires { HasClass version bytes.now place }
        ensures { result ≡ record { place = place; value = class_in version bytes.now place } }
    {
        ClassView {
            bytes,
            place,
            version,
        }
    }

    /// The name of the class.
    pub fn name(&self) -> &'a [u8]
        ensures { result.now ≡ self.now.value.name }
    {
        HeadView::at(self.bytes, self.place).name()
    }

    /// The name of the common whose permissions it inherits. It is empty where there is none.
    pub fn common(&self) -> &'a [u8]
        ensures { result.now ≡ self.now.value.common }
    {
        HeadView::at(self.bytes, self.place).common()
    }

    /// The value of the class, which is 1 to the `nprim` of its table.
    pub fn value(&self) -> u32
        ensures { result ≡ self.now.value.value }
    {
        HeadView::at(self.bytes, self.place).value()
    }

    /// How many permissions it declares, at most 32.
    pub fn nprim(&self) -> u32
        ensures { result ≡ self.now.value.nprim }
    {
        HeadView::at(self.bytes, self.place).nprim()
    }

    /// The class's own permissions, without those of the common.
    pub fn permissions(&self) -> PermissionList<'a>
        ensures { result ≡ self.now.value.permissions }
    {
        let count = HeadView::at(self.bytes, self.place).nel();
        PermissionList::at(self.bytes, head_end(self.bytes, self.place), count)
    }

    /// The constraints on its permissions.
    pub fn constraints(&self) -> ConstraintList<'a>
        ensures { result ≡ self.now.value.constraints }
    {
        let place = constraints_place(self.bytes, self.place, self.version);
        let count = HeadView::at(self.bytes, self.place).ncons();
        ConstraintList::at(self.bytes, place, self.version, count)
    }

    /// The constraints on a change of context, which may compare a third context.
    pub fn validatetrans(&self) -> ConstraintList<'a>
        ensures { result ≡ self.now.value.validatetrans }
    {
        let place = validatetrans_place(self.bytes, self.place, self.version);
        let count = u32_in(self.bytes, place as usize);
        ConstraintList::at(self.bytes, place + 4, self.version, count)
    }

    /// Whose user a new object has: 0 not said, 1 the source's, 2 the target's.
    pub fn default_user(&self) -> u32
        ensures { result ≡ self.now.value.default_user }
    {
        let place = defaults_place(self.bytes, self.place, self.version);
        u32_in(self.bytes, place as usize)
    }

    /// Whose role a new object has: 0 not said, 1 the source's, 2 the target's.
    pub fn default_role(&self) -> u32
        ensures { result ≡ self.now.value.default_role }
    {
        let place = defaults_place(self.bytes, self.place, self.version);
        u32_in(self.bytes, place as usize + 4)
    }

    /// Whose range a new object has: 0 not said, 1 source low, 2 source high, 3 source low-high, 4 target low, 5 target high,
    /// 6 target low-high, 7 glblub.
    pub fn default_range(&self) -> u32
        ensures { result ≡ self.now.value.default_range }
    {
        let place = defaults_place(self.bytes, self.place, self.version);
        u32_in(self.bytes, place as usize + 8)
    }

    /// Whose type a new object has: 0 not said, 1 the source's, 2 the target's.
    pub fn default_type(&self) -> u32
        ensures { result ≡ self.now.value.default_type }
    {
        let place = defaults_place(self.bytes, self.place, self.version);
        u32_in(self.bytes, place as usize + 12)
    }
}

impl<'a, const VERSION: u32> Copied<'a> for Class<VERSION> {
    fn rec(view: &ClassView<'a>, alloc: Global) -> Result<ClassRec, AllocError> {
        Ok(ClassRec {
            name: ByteList::copy_of(alloc, view.name())?,
            common: ByteList::copy_of(alloc, view.common())?,
            value: view.value(),
            nprim: view.nprim(),
            permissions: view.permissions().rec(alloc)?,
            constraints: view.constraints().rec(alloc)?,
            validatetrans: view.validatetrans().rec(alloc)?,
            default_user: view.default_user(),
            default_role: view.default_role(),
            default_range: view.default_range(),
            default_type: view.default_type(),
        })
    }
}

// Where the constraints of a class stand.
#[tactic(auto, unfolding(crate::specs::ClassRecord::constraints_place))]
fn constraints_place(bytes: &[u8], place: u32, version: u32) -> u32
    requires { HasClass version bytes.now place }
    ensures { result ≡ constraints_place bytes.now place }
{
    let count = HeadView::at(bytes, place).nel();
    permissions_end(bytes, head_end(bytes, place), count)
}

// Where the number of its constraints on a change of context stands.
#[tactic(auto, unfolding(crate::specs::ClassRecord::validatetrans_place))]
fn validatetrans_place(bytes: &[u8], place: u32, version: u32) -> u32
    requires { HasClass version bytes.now place }
    ensures exact { result ≡ validatetrans_place version bytes.now place }
    ensures within { (result + 4 ≤ length bytes.now) × (length bytes.now ≤ MAX_POLICY_BYTES) }
{
    let constraints = constraints_place(bytes, place, version);
    let count = HeadView::at(bytes, place).ncons();
    constraints_end(bytes, constraints, version, count)
}

// Where its defaults stand.
#[tactic(auto, unfolding(crate::specs::ClassRecord::defaults_place))]
fn defaults_place(bytes: &[u8], place: u32, version: u32) -> u32
    requires { HasClass version bytes.now place }
    ensures exact { result ≡ defaults_place version bytes.now place }
    ensures within { (result + 16 ≤ length bytes.now) × (length bytes.now ≤ MAX_POLICY_BYTES) }
{
    let place = validatetrans_place(bytes, place, version);
    let count = u32_in(bytes, place as usize);
    constraints_end(bytes, place + 4, version, count)
}

/// The class of a policy of that version at the cursor, which then stands behind it. Takes no memory.
///
/// It stands behind records that have taken names and values, in a table of that `nprim`. `EmptyName` where its name has no
/// byte, `ValueOut` where its value is not 1 to `nprim`, `DuplicateValue` where it is taken, `TableTooLarge` where it declares
/// more than 32 permissions, `BadNameByte` where a byte of its name lies outside 0x21 to 0x7E, `DuplicateName` where the name
/// is taken, `UnknownCommon` where it names a common that is not there, the faults of `read_permissions` under those of the
/// common and of `read_constraint`, and `BadDefault` where a default is none of those known.
#[tactic(auto, unfolding(crate::specs::ClassRecord::class_at, crate::specs::ClassRecord::constraints_place, crate::specs::ClassRecord::validatetrans_place, crate::specs::ClassRecord::defaults_place), using(pol_cursor::proofs::Facts::number_is))]
pub fn read_class<'a>(
    c: &mut Cursor<'a>,
    version: u32,
    taken: &Taken<'a>,
    nprim: u32,
    commons: &CommonList<'a>,
) -> Result<ClassView<'a>, Fault>
    ensures exact { Answers (λ class. class.value) result (class_at version taken.now nprim commons.now) c.old c.new }
    ensures stands { IfOk result (λ class. HasClass version c.old.bytes c.old.place × (class ≡ record { place = c.old.place; value = class_in version c.old.bytes c.old.place })) }
{
    let bytes = c.bytes();
    let place = c.place();
    let head = read_head(c, taken, nprim, commons)?;
    read_permissions(c, head.nel(), &inherited_from(commons, head.common()))?;
    pass_constraints(c, version, false, head.ncons())?;
    let nvalid = c.u32(CLASS_NVALID)?;
    pass_constraints(c, version, true, nvalid)?;
    pass_default(c, CLASS_DEFAULT_USER, 2)?;
    pass_default(c, CLASS_DEFAULT_ROLE, 2)?;
    pass_default(c, CLASS_DEFAULT_RANGE, 7)?;
    pass_default(c, CLASS_DEFAULT_TYPE, 2)?;
    Ok(ClassView {
        bytes,
        place,
        version,
    })
}

// Passes over the default at that field, which is at most the last of those known.
#[tactic(auto, unfolding(crate::specs::ClassRecord::default_at), using(pol_cursor::proofs::Facts::number_is))]
fn pass_default(c: &mut Cursor<'_>, field: Field, most: u32) -> Result<(), Fault>
    ensures exact { Answers (λ _. num c.old.bytes c.old.place 4) result (default_at field most) c.old c.new }
    ensures next { OnOk result ((c.new.place ≡ c.old.place + 4) × (c.new.place ≤ length c.old.bytes)) }
{
    let place = c.place();
    let default = c.u32(field)?;
    refuse(default_cause(most, default), place, field)
}
