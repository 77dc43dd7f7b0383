//! The texts of decimal numbers, of ports and of partition keys.

ghost use Rattle.std.specs.Prelude.{◌≡◌, ◌++◌, OnOk, decimal};
ghost use Rattle.pol_texts.specs.NumberTexts.{ports_text, key_text, keys_text};

use itoa::Buffer;
use std::alloc::AllocError;

/// Appends a decimal number.
pub fn push_decimal(out: &mut Vec<u8>, number: u64) -> Result<(), AllocError>
    ensures { OnOk result (out.new.items ≡ out.old.items ++ decimal number) }
{
    let mut digits = Buffer::new();
    out.extend_from_slice(digits.format(number).as_bytes())
}

/// Appends the text of a range of ports: `LOW`, or `LOW-HIGH` where they differ.
pub fn push_ports_text(out: &mut Vec<u8>, low: u32, high: u32) -> Result<(), AllocError>
    ensures { OnOk result (out.new.items ≡ out.old.items ++ ports_text low high) }
{
    push_decimal(out, u64::from(low))?;
    if low == high {
        return Ok(());
    }
    out.push(b'-')?;
    push_decimal(out, u64::from(high))
}

/// Appends the text of a range of partition keys: `0xLOW`, or `0xLOW-0xHIGH` where they differ, in lower hexadecimal digits
/// without zeros in front.
pub fn push_keys_text(out: &mut Vec<u8>, low: u32, high: u32) -> Result<(), AllocError>
    ensures { OnOk result (out.new.items ≡ out.old.items ++ keys_text low high) }
{
    push_key(out, low)?;
    if low == high {
        return Ok(());
    }
    out.push(b'-')?;
    push_key(out, high)
}

fn push_key(out: &mut Vec<u8>, key: u32) -> Result<(), AllocError>
    ensures { OnOk result (out.new.items ≡ out.old.items ++ key_text key) }
{
    let alloc = *out.allocator();
    let text = format!(in alloc; "0x{key:x}")?;
    out.extend_from_slice(text.as_bytes())
}
