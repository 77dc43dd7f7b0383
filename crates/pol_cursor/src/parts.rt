//! Parts of a buffer that is known to hold them.

ghost use Rattle.std.specs.Prelude.{◌≡◌, ◌≤◌, ◌+◌, ◌++◌, OnOk, OnErr, length, take, drop};
ghost use Rattle.pol_cursor.specs.Spelling.{bytes_of};
ghost use Rattle.pol_cursor.specs.Outcome.{Judges};
ghost use Rattle.pol_cursor.specs.Parts.{num};

use byteorder::{ByteOrder, LittleEndian};
use pol_fields::{Cause, Fault, Field};
use std::alloc::AllocError;

/// The little-endian number in the 2 bytes at a place.
#[tactic(auto, unfolding(crate::specs::Parts::num))]
pub fn u16_in(bytes: &[u8], place: usize) -> u16
    requires { place + 2 ≤ length bytes.now }
    ensures { result ≡ num bytes.now place 2 }
{
    LittleEndian::read_u16(&bytes[place..])
}

/// The little-endian number in the 4 bytes at a place.
#[tactic(auto, unfolding(crate::specs::Parts::num))]
pub fn u32_in(bytes: &[u8], place: usize) -> u32
    requires { place + 4 ≤ length bytes.now }
    ensures { result ≡ num bytes.now place 4 }
{
    LittleEndian::read_u32(&bytes[place..])
}

/// The little-endian number in the 8 bytes at a place.
#[tactic(auto, unfolding(crate::specs::Parts::num))]
pub fn u64_in(bytes: &[u8], place: usize) -> u64
    requires { place + 8 ≤ length bytes.now }
    ensures { result ≡ num bytes.now place 8 }
{
    LittleEndian::read_u64(&bytes[place..])
}

/// The n bytes from a place on, a part of the buffer.
pub fn string_in(bytes: &[u8], place: usize, n: usize) -> &[u8]
    requires { place + n ≤ length bytes.now }
    ensures { result.now ≡ take n (drop place bytes.now) }
{
    &bytes[place..place + n]
}

/// Refuses a value where there is a cause.
pub fn refuse(cause: Option<Cause>, place: u32, field: Field) -> Result<(), Fault>
    ensures { Judges result cause place field }
{
    match cause {
        None => Ok(()),
        Some(cause) => Err(Fault {
            place,
            field,
            cause,
        }),
    }
}

/// Appends the lowest bytes of a number, as many as its field is wide, the lowest of them first.
/// Out of memory, nothing was appended.
#[tactic(auto, using(crate::proofs::Numbers::first_bytes))]
pub fn push_number(out: &mut Vec<u8>, width: usize, n: u64) -> Result<(), AllocError>
    requires { width ≤ 8 }
    ensures ok { OnOk result (out.new.items ≡ out.old.items ++ bytes_of width n) }
    ensures err { OnErr result (out.new.items ≡ out.old.items) }
{
    let bytes = n.to_le_bytes();
    out.extend_from_slice(&bytes[..width])
}

/// That many bytes from a place on.
#[tactic(auto, using(crate::proofs::Facts::length_part))]
pub fn array_in<const WIDTH: usize>(bytes: &[u8], place: usize) -> [u8; WIDTH]
    requires { place + WIDTH ≤ length bytes.now }
    ensures { result ≡ take WIDTH (drop place bytes.now) }
{
    let mut array = [0; WIDTH];
    array.copy_from_slice(string_in(bytes, place, WIDTH));
    array
}
