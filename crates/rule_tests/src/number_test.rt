// What a criterion asks of the ioctl numbers of rules.
ghost use Rattle.std.specs.Prelude.{◌≡◌, IfOk, not};
ghost use Rattle.std.specs.List.{filter_map, list_all, list_any};
ghost use Rattle.pol_avtab.specs.XPerms.{numbers_of};
ghost use Rattle.rule_criteria.specs.Elements.{elements_of};
ghost use Rattle.rule_tests.specs.AskedNumbers.{compare_numbers, holds_span, is_asked, is_within, span_of, spans_of};
ghost use Rattle.rule_tests.specs.PartTests.{numbers_test, IsNumberTest};

use crate::spans::Span;
use crate::text_elements::elements;
use crate::text_numbers::span_of;
use pol_avtab::XPerms;
use pol_read::RulePart;
use rule_criteria::{Criterion, Mode};
use std::alloc::{AllocError, Global};

/// The numbers that are asked.
#[derive(Drop)]
pub struct NumberTest {
    mode: Mode,
    spans: Vec<Span>,
}

impl NumberTest {
    /// The numbers that a criterion asks.
    pub fn of(alloc: Global, criterion: &Criterion) -> Result<NumberTest, AllocError>
        ensures { IfOk result (IsNumberTest criterion.now) }
    {
        Ok(NumberTest {
            mode: criterion.mode,
            spans: spans_of(alloc, criterion.text.as_str().as_bytes())?,
        })
    }

    /// Whether a part of a rule meets them.
    pub fn meets(&self, part: &RulePart<'_>) -> bool
        ensures { result ≡ numbers_test self.now part.now }
    {
        match part {
            RulePart::Numbers(numbers) => compare(self.mode, &self.spans, numbers),
            _ => false,
        }
    }
}

// The spans that a text lists.
fn spans_of(alloc: Global, text: &[u8]) -> Result<Vec<Span>, AllocError>
    ensures { IfOk result (λ spans. spans.items ≡ spans_of text.now) }
{
    let elements = elements(alloc, text)?;
    all_spans(alloc, &elements)
}

// The spans that elements stand for.
fn all_spans(alloc: Global, elements: &[&[u8]]) -> Result<Vec<Span>, AllocError>
    ensures { IfOk result (λ spans. spans.items ≡ filter_map (λ element. span_of element.now) elements.now) }
{
    elements
        .iter()
        .filter_map(|element| span_of(element))
        .collect(alloc)
}

// Whether numbers compare with those asked as a mode says.
fn compare(mode: Mode, spans: &[Span], numbers: &XPerms<'_>) -> bool
    ensures { result ≡ compare_numbers mode spans.now numbers.now }
{
    match mode {
        Mode::Equal => all_asked(spans, numbers) && all_held(spans, numbers),
        _ => any_asked(spans, numbers),
    }
}

// Whether each number is asked.
fn all_asked(spans: &[Span], numbers: &XPerms<'_>) -> bool
    ensures { result ≡ list_all (is_asked spans.now) (numbers_of numbers.now) }
{
    !any_unasked(spans, numbers)
}

// Whether some number is not.
fn any_unasked(spans: &[Span], numbers: &XPerms<'_>) -> bool
    ensures { result ≡ list_any (λ number. not (is_asked spans.now number)) (numbers_of numbers.now) }
{
    numbers.numbers().any(|number| !is_asked(spans, number))
}

// Whether a number is.
fn is_asked(spans: &[Span], number: u16) -> bool
    ensures { result ≡ is_asked spans.now number }
{
    spans.iter().any(|span| span.has(number))
}

// Whether all that is asked is among the numbers.
fn all_held(spans: &[Span], numbers: &XPerms<'_>) -> bool
    ensures { result ≡ list_all (holds_span numbers.now) spans.now }
{
    spans.iter().all(|span| span.is_held(numbers))
}

// Whether some number is asked.
fn any_asked(spans: &[Span], numbers: &XPerms<'_>) -> bool
    ensures { result ≡ list_any (is_asked spans.now) (numbers_of numbers.now) }
{
    any_meets(spans, numbers)
}

// Whether some span has one of the numbers.
fn any_meets(spans: &[Span], numbers: &XPerms<'_>) -> bool
    ensures { result ≡ list_any (λ span. list_any (λ number. is_within number span) (numbers_of numbers.now)) spans.now }
{
    spans.iter().any(|span| span.meets(numbers))
}
