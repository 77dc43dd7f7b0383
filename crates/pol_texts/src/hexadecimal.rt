//! Hexadecimal digits.

ghost use Rattle.std.specs.Prelude.{◌≡◌, ◌<◌, ◌++◌, OnOk};
ghost use Rattle.pol_texts.specs.Hexadecimal.{hex_digit, hex_byte};

use std::alloc::AllocError;

/// Appends a byte as two lower hexadecimal digits.
pub fn push_hex_byte(out: &mut Vec<u8>, byte: u8) -> Result<(), AllocError>
    ensures { OnOk result (out.new.items ≡ out.old.items ++ hex_byte byte) }
{
    out.extend_from_slice(&[hex_digit(byte / 16), hex_digit(byte % 16)])
}

fn hex_digit(digit: u8) -> u8
    requires { digit < 16 }
    ensures { result ≡ hex_digit digit }
{
    if digit < 10 {
        b'0' + digit
    } else {
        b'a' - 10 + digit
    }
}
