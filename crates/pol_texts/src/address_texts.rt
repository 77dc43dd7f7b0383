//! The texts of addresses.

ghost use Rattle.std.specs.Prelude.{◌≡◌, ◌<◌, ◌++◌, OnOk, codes, decimal, length};
ghost use Rattle.std.specs.List.{flat_map};
ghost use Rattle.pol_texts.specs.AddressTexts.{ipv4_text, grouped_byte, groups_text};

use crate::hexadecimal::push_hex_byte;
use crate::number_texts::push_decimal;
use std::alloc::AllocError;

/// Appends the text of an IPv4 address or mask: decimal numbers with points between them.
pub fn push_ipv4_text(out: &mut Vec<u8>, address: &[u8]) -> Result<(), AllocError>
    ensures { OnOk result (out.new.items ≡ out.old.items ++ ipv4_text address.now) }
{
    match address.split_first() {
        None => Ok(()),
        Some((first, others)) => {
            push_decimal(out, u64::from(*first))?;
            push_after_points(out, others)
        }
    }
}

fn push_after_points(out: &mut Vec<u8>, bytes: &[u8]) -> Result<(), AllocError>
    ensures { OnOk result (out.new.items ≡ out.old.items ++ flat_map (λ byte. codes "." ++ decimal byte) bytes.now) }
{
    for byte in bytes {
        out.push(b'.')?;
        push_decimal(out, u64::from(*byte))?;
    }
    Ok(())
}

/// Appends the text of an IPv6 address or mask, or of the prefix of partition keys: groups of four lower hexadecimal digits,
/// with colons between them and without shortening.
pub fn push_groups_text(out: &mut Vec<u8>, bytes: &[u8]) -> Result<(), AllocError>
    ensures { OnOk result (out.new.items ≡ out.old.items ++ groups_text bytes.now) }
{
    for i in 0..bytes.len() {
        push_grouped_byte(out, bytes, i)?;
    }
    Ok(())
}

fn push_grouped_byte(out: &mut Vec<u8>, bytes: &[u8], i: usize) -> Result<(), AllocError>
    requires { i < length bytes.now }
    ensures { OnOk result (out.new.items ≡ out.old.items ++ grouped_byte bytes.now i) }
{
    if i > 0 && i % 2 == 0 {
        out.push(b':')?;
    }
    push_hex_byte(out, bytes[i])
}
