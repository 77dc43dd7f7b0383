//! The texts of names of files, paths, file systems, interfaces and devices.

ghost use Rattle.std.specs.Prelude.{◌≡◌, ◌++◌, OnOk};
ghost use Rattle.pol_texts.specs.NameTexts.{is_plain, byte_text, name_text};

use crate::hexadecimal::push_hex_byte;
use std::alloc::AllocError;

/// Appends the text of a name of a file, a path, a file system, an interface or a device: bytes 0x20 to 0x7E as they are,
/// except `"` and `\`, and each other byte as `\x` and two lower hexadecimal digits.
pub fn push_name_text(out: &mut Vec<u8>, name: &[u8]) -> Result<(), AllocError>
    ensures { OnOk result (out.new.items ≡ out.old.items ++ name_text name.now) }
{
    for byte in name {
        push_byte_text(out, *byte)?;
    }
    Ok(())
}

fn push_byte_text(out: &mut Vec<u8>, byte: u8) -> Result<(), AllocError>
    ensures { OnOk result (out.new.items ≡ out.old.items ++ byte_text byte) }
{
    if is_plain(byte) {
        Ok(out.push(byte)?)
    } else {
        out.extend_from_slice(b"\\x")?;
        push_hex_byte(out, byte)
    }
}

fn is_plain(byte: u8) -> bool
    ensures { result ≡ is_plain byte }
{
    if byte == b'"' || byte == b'\\' {
        false
    } else {
        byte >= 0x20 && byte <= 0x7e
    }
}
