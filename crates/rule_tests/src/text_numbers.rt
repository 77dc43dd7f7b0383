// Numbers and ranges of numbers in a text.
ghost use Rattle.std.specs.Prelude.{◌≡◌, ◌<◌, IfSome, length, []};
ghost use Rattle.std.specs.List.{position_from};
ghost use Rattle.rule_tests.specs.AskedNumbers.{digit, is_dash, without_prefix, number_of_digits, number_of, span_of};
ghost use Rattle.rule_tests.specs.Inner.DigitNumbers.{number_behind};

use crate::spans::Span;

/// The numbers that an element of a list stands for: a number, or two that do not fall, joined by `-`.
#[tactic(auto, unfolding(crate::specs::AskedNumbers::span_of))]
pub fn span_of(element: &[u8]) -> Option<Span>
    ensures { result ≡ span_of element.now }
{
    match first_dash(element) {
        Some(dash) => Span::between(number_of(&element[..dash]), number_of(&element[dash + 1..])),
        None => Span::between(number_of(element), number_of(element)),
    }
}

// The index of the first `-`.
fn first_dash(element: &[u8]) -> Option<usize>
    ensures index { result ≡ position_from is_dash 0 element.now }
    ensures within { IfSome result (λ index. index < length element.now) }
{
    element.iter().position(|byte| *byte == b'-')
}

// The number that a text is: hexadecimal, of 16 bits, with or without 0x or 0X.
#[tactic(auto, unfolding(crate::specs::AskedNumbers::number_of))]
fn number_of(text: &[u8]) -> Option<u16>
    ensures { result ≡ number_of text.now }
{
    number_of_digits(without_prefix(text))
}

// A text without the 0x or 0X that it begins with.
fn without_prefix(text: &[u8]) -> &[u8]
    ensures { result.now ≡ without_prefix text.now }
{
    match text {
        [b'0', b'x' | b'X', digits @ ..] => digits,
        _ => text,
    }
}

// The number of digits, one at least.
#[tactic(auto, using(crate::proofs::DigitNumbers::all_digits))]
fn number_of_digits(digits: &[u8]) -> Option<u16>
    ensures { result ≡ number_of_digits digits.now }
{
    if digits.is_empty() {
        return None;
    }
    number_of_all(digits)
}

// The number of all these digits.
#[tactic(auto, using(crate::proofs::DigitNumbers::none_at, crate::proofs::DigitNumbers::next_at, crate::proofs::DigitNumbers::passed, crate::proofs::DigitNumbers::end_at))]
fn number_of_all(digits: &[u8]) -> Option<u16>
    ensures { result ≡ number_behind 0 digits.now }
{
    let mut value: u32 = 0;
    for byte in digits {
        let Some(digit) = digit(*byte) else {
            return None;
        };
        value = value * 16 + digit;
        if value > 0xFFFF {
            return None;
        }
    }
    Some(value as u16)
}

// The value of a hexadecimal digit.
fn digit(byte: u8) -> Option<u32>
    ensures exact { result ≡ digit byte }
    ensures small { IfSome result (λ value. value < 16) }
{
    match byte {
        b'0'..=b'9' => Some(byte as u32 - 48),
        b'A'..=b'F' => Some(byte as u32 - 55),
        b'a'..=b'f' => Some(byte as u32 - 87),
        _ => None,
    }
}
