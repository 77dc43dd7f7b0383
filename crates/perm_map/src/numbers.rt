// What single fields say.
ghost use Rattle.std.specs.Prelude.{◌≡◌, ◌≤◌, true, length};
ghost use Rattle.std.specs.List.{list_all};
ghost use Rattle.perm_map.specs.MapFields.{decimal, direction_in, is_digit, number_in, weight_written};

use crate::direction::Direction;

fn is_digit(byte: u8) -> bool
    ensures { result ≡ is_digit byte }
{
    48 <= byte && byte <= 57
}

/// The number that 1 to 9 digits write.
#[tactic(auto, unfolding(crate::specs::MapFields::number_in))]
pub fn number_in(text: &[u8]) -> Option<u32>
    ensures { result ≡ number_in text.now }
{
    if 1 <= text.len() && text.len() <= 9 && are_digits(text) {
        Some(decimal(text))
    } else {
        None
    }
}

fn are_digits(text: &[u8]) -> bool
    ensures { result ≡ list_all is_digit text.now }
{
    text.iter().all(|byte| is_digit(*byte))
}

// The number that digits write.
fn decimal(digits: &[u8]) -> u32
    requires few { length digits.now ≤ 9 }
    requires digits { list_all is_digit digits.now ≡ true }
    ensures { result ≡ decimal digits.now }
{
    let mut number = 0;
    for digit in digits {
        number = number * 10 + u32::from(*digit - b'0');
    }
    number
}

/// The letter of a direction.
pub fn direction_in(text: &[u8]) -> Option<Direction>
    ensures { result ≡ direction_in text.now }
{
    match text {
        [b'r'] => Some(Direction::Read),
        [b'w'] => Some(Direction::Write),
        [b'b'] => Some(Direction::Both),
        [b'n'] => Some(Direction::No),
        [b'u'] => Some(Direction::Unmapped),
        _ => None,
    }
}

/// A weight, 1 to 10.
pub fn weight_in(text: &[u8]) -> Option<u8>
    ensures { result ≡ weight_written text.now }
{
    match number_in(text) {
        Some(number) => {
            if 1 <= number && number <= 10 {
                Some(number as u8)
            } else {
                None
            }
        }
        None => None,
    }
}
