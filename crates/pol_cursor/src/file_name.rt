//! Names of files, file systems, interfaces and devices.
ghost use Rattle.std.specs.Prelude.{◌≡◌, ◌≤◌, ◌+◌, OnOk, IfOk, length, take, drop};
ghost use Rattle.pol_fields.specs.declared.limits.TheConstants.{MAX_POLICY_BYTES};
ghost use Rattle.std.specs.List.{list_all};
ghost use Rattle.pol_cursor.specs.FileNames.{name_length_test, is_name_byte, name_test, name_length_at, name_bytes_at, name_at, name_in, name_end};
ghost use Rattle.pol_cursor.specs.Outcome.{Answers};
ghost use Rattle.pol_cursor.specs.Parts.{num};

use crate::{Cursor, refuse, string_in, u32_in};
use pol_fields::{Cause, Fault, Field};

/// `BadName` where a name would have no byte.
fn name_length_cause(len: u32) -> Option<Cause>
    ensures { result ≡ name_length_test len }
{
    if len == 0 { Some(Cause::BadName) } else { None }
}

/// `BadName` where a byte of a name is 0.
fn name_cause(name: &[u8]) -> Option<Cause>
    ensures { result ≡ name_test name.now }
{
    if is_name(name) {
        None
    } else {
        Some(Cause::BadName)
    }
}

fn is_name(name: &[u8]) -> bool
    ensures { result ≡ list_all is_name_byte name.now }
{
    name.iter().all(|byte| is_name_byte(*byte))
}

fn is_name_byte(byte: u8) -> bool
    ensures { result ≡ is_name_byte byte }
{
    byte != 0
}

/// The length of a name. `BadName` where it is 0.
#[tactic(auto, unfolding(crate::specs::FileNames::name_length_at), using(crate::proofs::Facts::number_is))]
pub fn read_name_length(c: &mut Cursor<'_>, field: Field) -> Result<u32, Fault>
    ensures exact { Answers (λ len. len) result (name_length_at field) c.old c.new }
    ensures same { IfOk result (λ len. len ≡ num c.old.bytes c.old.place 4) }
    ensures next { OnOk result ((c.new.place ≡ c.old.place + 4) × (c.new.place ≤ length c.old.bytes)) }
{
    let place = c.place();
    let len = c.u32(field)?;
    refuse(name_length_cause(len), place, field)?;
    Ok(len)
}

/// The bytes of a name of that length. `BadName` where one of them is 0.
#[tactic(auto, unfolding(crate::specs::FileNames::name_bytes_at), using(crate::proofs::Facts::string_is))]
pub fn read_name_bytes<'a>(c: &mut Cursor<'a>, field: Field, len: u32) -> Result<&'a [u8], Fault>
    ensures exact { Answers (λ name. name.now) result (name_bytes_at field len) c.old c.new }
    ensures same { IfOk result (λ name. name.now ≡ take len (drop c.old.place c.old.bytes)) }
    ensures next { OnOk result ((c.new.place ≡ c.old.place + len) × (c.new.place ≤ length c.old.bytes)) }
{
    let place = c.place();
    let name = c.take(len, field)?;
    refuse(name_cause(name), place, field)?;
    Ok(name)
}

/// The name at the cursor, which then stands behind it: a length and so many bytes, each a field of its own. `BadName` where
/// there is none, or a byte of it is 0.
#[tactic(auto, unfolding(crate::specs::FileNames::name_at))]
pub fn read_name<'a>(
    c: &mut Cursor<'a>,
    len_field: Field,
    name_field: Field,
) -> Result<&'a [u8], Fault>
    ensures exact { Answers (λ name. name.now) result (name_at len_field name_field) c.old c.new }
    ensures same { IfOk result (λ name. name.now ≡ name_in c.old.bytes c.old.place) }
    ensures next { OnOk result ((c.new.place ≡ name_end c.old.bytes c.old.place) × (c.new.place ≤ length c.old.bytes)) }
{
    let len = read_name_length(c, len_field)?;
    read_name_bytes(c, name_field, len)
}

/// The name that stands at a place.
pub fn name_standing(bytes: &[u8], place: u32) -> &[u8]
    requires place { name_end bytes.now place ≤ length bytes.now }
    requires size { length bytes.now ≤ MAX_POLICY_BYTES }
    ensures { result.now ≡ name_in bytes.now place }
{
    let len = u32_in(bytes, place as usize);
    string_in(bytes, place as usize + 4, len as usize)
}

/// The place behind the name at a place.
pub fn name_end(bytes: &[u8], place: u32) -> u32
    requires place { name_end bytes.now place ≤ length bytes.now }
    requires size { length bytes.now ≤ MAX_POLICY_BYTES }
    ensures { result ≡ name_end bytes.now place }
{
    place + 4 + u32_in(bytes, place as usize)
}
