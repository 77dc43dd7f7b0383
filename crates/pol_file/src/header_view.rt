//! The header in the buffer, and how it is read.

ghost use Rattle.std.specs.Prelude.{◌≡◌, ◌≤◌, ◌+◌, Ok, IfOk, OnOk, length};
ghost use Rattle.pol_cursor.specs.Outcome.{Answers};
ghost use Rattle.pol_file.specs.HeaderRecord.{identity_at, counts_at, header_at, header_in, HasHeader};

use crate::header_causes::{
    config_cause, context_tables_cause, identity_cause, identity_length_cause, magic_cause,
    symbol_tables_cause, version_cause,
};
use crate::header_rec::HeaderRec;
use pol_cursor::{Cursor, refuse, u32_in};
use pol_fields::Fault;
use pol_fields::fields::{
    HEADER_CONFIG, HEADER_CONTEXTS, HEADER_ID, HEADER_IDLEN, HEADER_MAGIC, HEADER_SYMTABS,
    HEADER_VERSION,
};
use std::alloc::{AllocError, Global};
use std::marker::Model;

/// A header in the buffer: 32 bytes.
#[derive(Drop)]
pub struct HeaderView<'a> {
    bytes: &'a [u8],
    place: u32,
}

impl<'a> Model for HeaderView<'a> {
    ghost use Rattle.pol_file.specs.declared.header_rec.HeaderRec.{HeaderRec};
    ghost use Rattle.pol_file.specs.HeaderRecord.{header_in, HasHeader};

    ghost Value = { HeaderRec };

    ghost view = { λ v. header_in v.bytes.now v.place };

    ghost invariant = { λ v. HasHeader v.bytes.now v.place };
}

impl<'a> HeaderView<'a> {
    /// The version of the format, 28 to 34.
    pub fn version(&self) -> u32
        ensures { result ≡ self.now.version }
    {
        u32_in(self.bytes, self.place as usize + 16)
    }

    /// Bit 0x1 is MLS, 0x2 refuses unknown classes and 0x4 allows them.
    pub fn config(&self) -> u32
        ensures { result ≡ self.now.config }
    {
        u32_in(self.bytes, self.place as usize + 20)
    }

    /// A copy of the header. It takes no memory, and so there is no error.
    pub fn rec(&self, _alloc: Global) -> Result<HeaderRec, AllocError>
        ensures { result ≡ Ok self.now }
    {
        Ok(HeaderRec {
            version: self.version(),
            config: self.config(),
        })
    }
}

/// The header at the cursor, which then stands behind it.
///
/// `BadMagic` where the magic number is another, `BadIdentity` where the identity is not 8 bytes long or not `SE Linux`,
/// `UnsupportedVersion` where the version is not 28 to 34, `NotMls` where the policy has no MLS, `BadUnknown` where unknown
/// classes are both refused and allowed, `BadCounts` where there are not 8 symbol tables, or not as many tables of contexts as
/// the version has: 7 up to version 30 and 9 from 31 on.
#[tactic(auto, unfolding(crate::specs::HeaderRecord::header_at), using(pol_cursor::proofs::Facts::number_is))]
pub fn read_header<'a>(c: &mut Cursor<'a>) -> Result<HeaderView<'a>, Fault>
    ensures exact { Answers (λ v. v) result header_at c.old c.new }
    ensures stands { IfOk result (λ v. HasHeader c.old.bytes c.old.place × (v ≡ header_in c.old.bytes c.old.place)) }
{
    let bytes = c.bytes();
    let first = c.place();
    pass_identity(c)?;
    let place = c.place();
    let version = c.u32(HEADER_VERSION)?;
    refuse(version_cause(version), place, HEADER_VERSION)?;
    let place = c.place();
    let config = c.u32(HEADER_CONFIG)?;
    refuse(config_cause(config), place, HEADER_CONFIG)?;
    pass_counts(c, version)?;
    Ok(HeaderView {
        bytes,
        place: first,
    })
}

// Reads what says that the file is a kernel policy: 16 bytes.
#[tactic(auto, unfolding(crate::specs::HeaderRecord::identity_at), using(pol_cursor::proofs::Facts::number_is, pol_cursor::proofs::Facts::string_is))]
fn pass_identity(c: &mut Cursor<'_>) -> Result<(), Fault>
    ensures exact { Answers (λ u. u) result identity_at c.old c.new }
    ensures next { OnOk result (c.new.place ≡ c.old.place + 16) }
{
    let place = c.place();
    let magic = c.u32(HEADER_MAGIC)?;
    refuse(magic_cause(magic), place, HEADER_MAGIC)?;
    let place = c.place();
    let len = c.u32(HEADER_IDLEN)?;
    refuse(identity_length_cause(len), place, HEADER_IDLEN)?;
    let place = c.place();
    let id = c.take(8, HEADER_ID)?;
    refuse(identity_cause(id), place, HEADER_ID)
}

// Reads the numbers of tables: 8 bytes.
#[tactic(auto, unfolding(crate::specs::HeaderRecord::counts_at), using(pol_cursor::proofs::Facts::number_is))]
fn pass_counts(c: &mut Cursor<'_>, version: u32) -> Result<(), Fault>
    ensures exact { Answers (λ u. u) result (counts_at version) c.old c.new }
    ensures next { OnOk result ((c.new.place ≡ c.old.place + 8) × (c.new.place ≤ length c.old.bytes)) }
{
    let place = c.place();
    let symbol_tables = c.u32(HEADER_SYMTABS)?;
    refuse(symbol_tables_cause(symbol_tables), place, HEADER_SYMTABS)?;
    let place = c.place();
    let context_tables = c.u32(HEADER_CONTEXTS)?;
    refuse(
        context_tables_cause(version, context_tables),
        place,
        HEADER_CONTEXTS,
    )
}
