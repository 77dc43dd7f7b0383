//! The head of a class: the numbers and names before its lists.

ghost use Rattle.std.specs.Prelude.{◌≡◌, ◌≤◌, ◌+◌, IfOk, OnOk, length, take, drop};
ghost use Rattle.pol_cursor.specs.Outcome.{Answers};
ghost use Rattle.pol_classes.specs.ClassRecord.{common_name_at, head_at, head_in, head_end, HasHead};

use crate::causes::common_cause;
use pol_commons::{CommonList, permission_count_cause};
use pol_cursor::{Cursor, refuse, string_in, u32_in};
use pol_fields::Fault;
use pol_fields::fields::{
    CLASS_COMMON, CLASS_LEN, CLASS_LEN2, CLASS_NAME, CLASS_NCONS, CLASS_NEL, CLASS_NPRIM,
    CLASS_VALUE,
};
use pol_symtab::{Taken, new_value_cause, read_symbol_length, read_symbol_name};
use std::marker::Model;

/// The head of a class in the buffer.
#[derive(Drop)]
pub struct HeadView<'a> {
    bytes: &'a [u8],
    place: u32,
}

impl<'a> Model for HeadView<'a> {
    ghost use Rattle.pol_classes.specs.ClassRecord.{Head, head_in, HasHead};

    ghost Value = { Head };

    ghost view = { λ v. head_in v.bytes.now v.place };

    ghost invariant = { λ v. HasHead v.bytes.now v.place };
}

impl<'a> HeadView<'a> {
    /// The head at a place that has one.
    pub fn at(bytes: &'a [u8], place: u32) -> HeadView<'a>
        requires { HasHead bytes.now place }
        ensures { result ≡ head_in bytes.now place }
    {
        HeadView { bytes, place }
    }

    /// The name of the class.
    pub fn name(&self) -> &'a [u8]
        ensures { result.now ≡ self.now.name }
    {
        let len = u32_in(self.bytes, self.place as usize);
        string_in(self.bytes, self.place as usize + 24, len as usize)
    }

    /// The name of its common, which is empty where there is none.
    pub fn common(&self) -> &'a [u8]
        ensures { result.now ≡ self.now.common }
    {
        let len = u32_in(self.bytes, self.place as usize);
        let common_len = u32_in(self.bytes, self.place as usize + 4);
        let place = self.place + 24 + len;
        string_in(self.bytes, place as usize, common_len as usize)
    }

    /// The value of the class, which is 1 to the `nprim` of its table.
    pub fn value(&self) -> u32
        ensures { result ≡ self.now.value }
    {
        u32_in(self.bytes, self.place as usize + 8)
    }

    /// How many permissions the class declares.
    pub fn nprim(&self) -> u32
        ensures { result ≡ self.now.nprim }
    {
        u32_in(self.bytes, self.place as usize + 12)
    }

    /// How many permissions of its own it has.
    pub fn nel(&self) -> u32
        ensures { result ≡ self.now.nel }
    {
        u32_in(self.bytes, self.place as usize + 16)
    }

    /// How many constraints it has.
    pub fn ncons(&self) -> u32
        ensures { result ≡ self.now.ncons }
    {
        u32_in(self.bytes, self.place as usize + 20)
    }
}

/// The place behind the head at a place that has one.
pub fn head_end(bytes: &[u8], place: u32) -> u32
    requires { HasHead bytes.now place }
    ensures exact { result ≡ head_end bytes.now place }
    ensures within { result ≤ length bytes.now }
{
    let len = u32_in(bytes, place as usize);
    place + 24 + len + u32_in(bytes, place as usize + 4)
}

/// The head at the cursor, which then stands behind it. Takes no memory.
#[tactic(auto, unfolding(crate::specs::ClassRecord::head_at), using(pol_cursor::proofs::Facts::number_is))]
pub fn read_head<'a>(
    c: &mut Cursor<'a>,
    taken: &Taken<'a>,
    nprim: u32,
    commons: &CommonList<'a>,
) -> Result<HeadView<'a>, Fault>
    ensures exact { Answers (λ head. head) result (head_at taken.now nprim commons.now) c.old c.new }
    ensures stands { IfOk result (λ head. HasHead c.old.bytes c.old.place × (head ≡ head_in c.old.bytes c.old.place)) }
    ensures next { OnOk result (c.new.place ≡ head_end c.old.bytes c.old.place) }
{
    let bytes = c.bytes();
    let first = c.place();
    let len = read_symbol_length(c, CLASS_LEN)?;
    let common_len = c.u32(CLASS_LEN2)?;
    let place = c.place();
    let value = c.u32(CLASS_VALUE)?;
    refuse(new_value_cause(nprim, taken, value), place, CLASS_VALUE)?;
    let place = c.place();
    let own_nprim = c.u32(CLASS_NPRIM)?;
    refuse(permission_count_cause(own_nprim), place, CLASS_NPRIM)?;
    c.u32(CLASS_NEL)?;
    c.u32(CLASS_NCONS)?;
    read_symbol_name(c, CLASS_NAME, len, taken)?;
    read_common_name(c, common_len, commons)?;
    Ok(HeadView {
        bytes,
        place: first,
    })
}

// The name of a common, which has that length.
#[tactic(auto, unfolding(crate::specs::ClassRecord::common_name_at), using(pol_cursor::proofs::Facts::string_is))]
fn read_common_name<'a>(
    c: &mut Cursor<'a>,
    len: u32,
    commons: &CommonList<'a>,
) -> Result<&'a [u8], Fault>
    ensures exact { Answers (λ name. name.now) result (common_name_at commons.now len) c.old c.new }
    ensures same { IfOk result (λ name. name.now ≡ take len (drop c.old.place c.old.bytes)) }
    ensures next { OnOk result ((c.new.place ≡ c.old.place + len) × (c.new.place ≤ length c.old.bytes)) }
{
    let place = c.place();
    let name = c.take(len, CLASS_COMMON)?;
    refuse(common_cause(commons, name), place, CLASS_COMMON)?;
    Ok(name)
}
