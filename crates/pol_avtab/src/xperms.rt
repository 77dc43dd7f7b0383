ghost use Rattle.std.specs.Prelude.{◌≡◌, ◌+◌, ◌≤◌, ◌<◌, ℕ, false, IfSome, IfNone, length};
ghost use Rattle.pol_fields.specs.declared.limits.TheConstants.{MAX_POLICY_BYTES};
ghost use Rattle.std.specs.List.{All};
ghost use Rattle.pol_bitmap.specs.Nodes.{IsLeastFrom};
ghost use Rattle.pol_avtab.specs.XPerms.{xperms_in, has_xbit, holds, numbers_of, shown_mask, IsNextBit};

use crate::causes::kind_of;
use crate::codes::{AVTAB_AUDITDENY, AVTAB_XPERMS_IOCTLFUNCTION};
use crate::xnumbers::XNumbers;
use pol_cursor::{array_in, u32_in};
use std::marker::Model;

/// The ioctl numbers of an extended access vector in the buffer. Contracts see its parts, and by `numbers_of` the rising list
/// of the numbers that it holds.
#[derive(Drop)]
pub struct XPerms<'a> {
    bytes: &'a [u8],
    place: u32,
}

impl<'a> Model for XPerms<'a> {
    ghost use Rattle.pol_fields.specs.declared.limits.TheConstants.{MAX_POLICY_BYTES};
    ghost use Rattle.std.specs.Prelude.{◌+◌, ◌≤◌, length};
    ghost use Rattle.pol_avtab.specs.XPerms.{Numbers, xperms_in};

    ghost Value = { Numbers };

    ghost view = { λ x. xperms_in x.bytes.now x.place };

    ghost invariant = { λ x. (x.place + 34 ≤ length x.bytes.now) × (length x.bytes.now ≤ MAX_POLICY_BYTES) };
}

impl<'a> XPerms<'a> {
    /// The numbers of the extended part at a place that has one.
    pub(crate) fn at(bytes: &'a [u8], place: u32) -> XPerms<'a>
        requires long { place + 34 ≤ length bytes.now }
        requires size { length bytes.now ≤ MAX_POLICY_BYTES }
        ensures { result ≡ xperms_in bytes.now place }
    {
        XPerms { bytes, place }
    }

    /// `AVTAB_XPERMS_IOCTLFUNCTION` or `AVTAB_XPERMS_IOCTLDRIVER` of [`codes`](crate::codes).
    #[tactic(auto, using(crate::proofs::Places::byte_is))]
    pub fn xkind(&self) -> u8
        ensures { result ≡ self.now.xkind }
    {
        self.bytes[self.place as usize]
    }

    /// The driver, which is the high byte of the numbers. It has no meaning in whole drivers.
    #[tactic(auto, using(crate::proofs::Places::byte_is))]
    pub fn driver(&self) -> u8
        ensures { result ≡ self.now.driver }
    {
        self.bytes[self.place as usize + 1]
    }

    /// The 32 bytes of the bits.
    pub fn bits(&self) -> [u8; 32]
        ensures { result ≡ self.now.bits }
    {
        array_in(self.bytes, self.place as usize + 2)
    }

    /// Whether it holds an ioctl number.
    pub fn has(&self, number: u16) -> bool
        ensures { result ≡ holds self.now number }
    {
        let high = number / 256;
        if self.xkind() == AVTAB_XPERMS_IOCTLFUNCTION {
            high == self.driver() as u16 && self.has_bit(number % 256)
        } else {
            self.has_bit(high)
        }
    }

    /// The least number at or above a number that it holds, and `None` exactly where there is none.
    pub fn next_from(&self, number: u16) -> Option<u16>
        ensures some { IfSome result (IsLeastFrom (numbers_of self.now) number) }
        ensures none { IfNone result (All (λ n. n < number) (numbers_of self.now)) }
    {
        if self.xkind() == AVTAB_XPERMS_IOCTLFUNCTION {
            let first = self.driver() as u16 * 256;
            Some(first + self.next_bit(number.saturating_sub(first))?)
        } else if self.has_bit(number / 256) {
            Some(number)
        } else {
            Some(self.next_bit(number / 256 + 1)? * 256)
        }
    }

    /// The numbers that it holds, rising.
    pub fn numbers(&self) -> XNumbers<'a>
        ensures { result ≡ numbers_of self.now }
    {
        XNumbers::new(XPerms::at(self.bytes, self.place))
    }

    // The least bit at or above one of them.
    fn next_bit(&self, from: u16) -> Option<u16>
        ensures some { IfSome result (IsNextBit self.now.bits from) }
        ensures none { IfNone result ((b : ℕ) → from ≤ b → b < 256 → has_xbit self.now.bits b ≡ false) }
    {
        for bit in from..256 {
            if self.has_bit(bit) {
                return Some(bit);
            }
        }
        None
    }

    // Whether that bit is set.
    #[tactic(auto, using(crate::proofs::Places::num_part, std::proofs::lemmas::Nat::Bits::shr_and_one))]
    fn has_bit(&self, bit: u16) -> bool
        requires { bit < 256 }
        ensures { result ≡ has_xbit self.now.bits bit }
    {
        let place = self.place as usize + 2 + 4 * (bit as usize / 32);
        let word = u32_in(self.bytes, place);
        word >> (bit % 32) & 1 == 1
    }
}

/// The permissions that a rule shows: those that are not in the data of auditdeny, and those in the data of any other rule.
pub fn shown_mask(specified: u16, mask: u32) -> u32
    ensures { result ≡ shown_mask specified mask }
{
    if kind_of(specified) == AVTAB_AUDITDENY {
        !mask
    } else {
        mask
    }
}
