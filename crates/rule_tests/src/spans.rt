// Spans of numbers.
ghost use Rattle.std.specs.Prelude.{◌≡◌};
ghost use Rattle.rule_tests.specs.AskedNumbers.{is_within, holds_span, span_between};
ghost use Rattle.std.specs.List.{list_any};
ghost use Rattle.pol_avtab.specs.XPerms.{numbers_of};

use pol_avtab::XPerms;

/// The numbers from one to another, both among them.
#[derive(Clone, Copy, Debug, PartialEq, Eq)]
pub struct Span {
    pub low: u16,
    pub high: u16,
}

impl Span {
    /// The span between two numbers, where the second is not below the first.
    pub fn between(low: Option<u16>, high: Option<u16>) -> Option<Span>
        ensures { result ≡ span_between low high }
    {
        let Some(low) = low else {
            return None;
        };
        let Some(high) = high else {
            return None;
        };
        if low <= high {
            Some(Span { low, high })
        } else {
            None
        }
    }

    /// Whether a number is within.
    pub fn has(&self, number: u16) -> bool
        ensures { result ≡ is_within number self.now }
    {
        self.low <= number && number <= self.high
    }

    /// Whether one of the numbers is within.
    pub fn meets(&self, numbers: &XPerms<'_>) -> bool
        ensures { result ≡ list_any (λ number. is_within number self.now) (numbers_of numbers.now) }
    {
        match numbers.next_from(self.low) {
            Some(number) => number <= self.high,
            None => false,
        }
    }

    /// Whether all numbers that are within are among these.
    pub fn is_held(&self, numbers: &XPerms<'_>) -> bool
        ensures { result ≡ holds_span numbers.now self.now }
    {
        for number in self.low as u32..self.high as u32 + 1 {
            if !numbers.has(number as u16) {
                return false;
            }
        }
        true
    }
}
