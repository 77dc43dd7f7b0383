//! The first bytes of a name as one number, which orders most names at once.

ghost use Rattle.std.specs.Prelude.{◌≡◌, ◌<◌, length};
ghost use Rattle.pol_cursor.specs.Spelling.{AreBytes};
ghost use Rattle.pol_symtab.specs.Inner.NamePrefixes.{prefix};

use byteorder::{BigEndian, ByteOrder};

/// The first eight bytes of a name as one number, the first byte the highest, with zeros behind a shorter name.
#[tactic(auto, unfolding(crate::specs::Inner::NamePrefixes::prefix))]
pub(crate) fn prefix_of(name: &[u8]) -> u64
    ensures same { result ≡ prefix name.now }
    ensures bytes { AreBytes name.now }
{
    if name.len() < 8 {
        return short_prefix(name);
    }
    BigEndian::read_u64(name)
}

// The number of a name of fewer than eight bytes.
#[tactic(auto, using(crate::proofs::Prefixes::prefix_padded))]
fn short_prefix(name: &[u8]) -> u64
    requires { length name.now < 8 }
    ensures { result ≡ prefix name.now }
{
    let mut bytes = [0; 8];
    bytes[..name.len()].copy_from_slice(name);
    BigEndian::read_u64(&bytes)
}
