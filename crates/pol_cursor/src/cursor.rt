//! The cursor: the numbers and parts at a place of a policy, one after the other.

ghost use Rattle.std.specs.Prelude.{◌≡◌, ◌≤◌, ◌<◌, ◌^◌, length, ◌+◌, OnErr, IfOk};
ghost use Rattle.pol_fields.specs.declared.limits.TheConstants.{MAX_POLICY_BYTES};
ghost use Rattle.pol_cursor.specs.Outcome.{Answers, fault};
ghost use Rattle.pol_cursor.specs.Parts.{number, string, end_at};

use byteorder::{ByteOrder, LittleEndian};
use pol_fields::{Cause, Fault, Field};
use std::marker::Model;

/// A place in the bytes of a policy, which are at most 67,108,864. Contracts see all the bytes and the place.
#[derive(Drop)]
pub struct Cursor<'a> {
    bytes: &'a [u8],
    place: u32,
}

impl<'a> Model for Cursor<'a> {
    ghost use Rattle.pol_fields.specs.declared.limits.TheConstants.{MAX_POLICY_BYTES};
    ghost use Rattle.std.specs.Prelude.{◌≤◌, length};
    ghost use Rattle.pol_cursor.specs.Outcome.{Position};

    ghost Value = { Position };

    ghost view = { λ c. record { bytes = c.bytes.now; place = c.place } };

    ghost invariant = { λ c. (c.place ≤ length c.bytes.now) × (length c.bytes.now ≤ MAX_POLICY_BYTES) };
}

impl<'a> Cursor<'a> {
    /// The first place.
    pub fn new(bytes: &'a [u8]) -> Cursor<'a>
        requires { length bytes.now ≤ MAX_POLICY_BYTES }
        ensures { result ≡ record { bytes = bytes.now; place = 0 } }
    {
        Cursor { bytes, place: 0 }
    }

    /// That place.
    pub fn at(bytes: &'a [u8], place: u32) -> Cursor<'a>
        requires size { length bytes.now ≤ MAX_POLICY_BYTES }
        requires place { place ≤ length bytes.now }
        ensures { result ≡ record { bytes = bytes.now; place = place } }
    {
        Cursor { bytes, place }
    }

    /// All the bytes.
    pub fn bytes(&self) -> &'a [u8]
        ensures all { result.now ≡ self.now.bytes }
        ensures small { length self.now.bytes ≤ MAX_POLICY_BYTES }
    {
        self.bytes
    }

    /// The place, in bytes from the first.
    pub fn place(&self) -> u32
        ensures { result ≡ self.now.place }
    {
        self.place
    }

    /// The little-endian number in the next byte. `Short` exactly where fewer are left.
    #[tactic(auto, using(crate::proofs::Facts::number_of_string, crate::proofs::Facts::number_of_short))]
    pub fn u8(&mut self, field: Field) -> Result<u8, Fault>
        ensures exact { Answers (λ n. n) result (number field 1) self.old self.new }
        ensures err { OnErr result (self.new ≡ self.old) }
    {
        Ok(self.take(1, field)?[0])
    }

    /// The little-endian number in the next 2 bytes. `Short` exactly where fewer are left.
    #[tactic(auto, using(crate::proofs::Facts::number_of_string, crate::proofs::Facts::number_of_short))]
    pub fn u16(&mut self, field: Field) -> Result<u16, Fault>
        ensures exact { Answers (λ n. n) result (number field 2) self.old self.new }
        ensures err { OnErr result (self.new ≡ self.old) }
    {
        Ok(LittleEndian::read_u16(self.take(2, field)?))
    }

    /// The little-endian number in the next 4 bytes. `Short` exactly where fewer are left.
    #[tactic(auto, using(crate::proofs::Facts::number_of_string, crate::proofs::Facts::number_of_short))]
    pub fn u32(&mut self, field: Field) -> Result<u32, Fault>
        ensures exact { Answers (λ n. n) result (number field 4) self.old self.new }
        ensures err { OnErr result (self.new ≡ self.old) }
    {
        Ok(LittleEndian::read_u32(self.take(4, field)?))
    }

    /// The little-endian number in the next 8 bytes. `Short` exactly where fewer are left.
    #[tactic(auto, using(crate::proofs::Facts::number_of_string, crate::proofs::Facts::number_of_short))]
    pub fn u64(&mut self, field: Field) -> Result<u64, Fault>
        ensures exact { Answers (λ n. n) result (number field 8) self.old self.new }
        ensures err { OnErr result (self.new ≡ self.old) }
    {
        Ok(LittleEndian::read_u64(self.take(8, field)?))
    }

    /// The next n bytes, a part of the buffer. `Short` exactly where fewer are left.
    #[tactic(auto, unfolding(crate::specs::Parts::string))]
    pub fn take(&mut self, n: u32, field: Field) -> Result<&'a [u8], Fault>
        ensures exact { Answers (λ part. part.now) result (string field n) self.old self.new }
        ensures err { OnErr result (self.new ≡ self.old) }
    {
        let rest = &self.bytes[self.place as usize..];
        if rest.len() < n as usize {
            return Err(self.fault(field, Cause::Short));
        }
        self.place += n;
        Ok(&rest[..n as usize])
    }

    /// `Trailing` exactly where bytes are left.
    #[tactic(auto, unfolding(crate::specs::Parts::end_at))]
    pub fn end(&self, field: Field) -> Result<(), Fault>
        ensures { Answers (λ u. u) result (end_at field) self.now self.now }
    {
        if self.bytes.len() > self.place as usize {
            return Err(self.fault(field, Cause::Trailing));
        }
        Ok(())
    }

    fn fault(&self, field: Field, cause: Cause) -> Fault
        ensures { result ≡ fault self.now.place field cause }
    {
        Fault {
            place: self.place,
            field,
            cause,
        }
    }
}
