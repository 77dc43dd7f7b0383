//! What a search asks of the kinds, the permissions and the ioctl numbers of rules, and which access vectors of a table may be asked.
//!
//! A criterion lists names of permissions or numbers. They are looked up once, and what they mean is kept as bits and as spans of
//! numbers, so that a rule is compared without its names ([`PermissionTest`], [`NumberTest`]).
//!
//! ```text
//! let test = PermissionTest::of(alloc, symbols, &criterion)?;
//! let is_met = test.meets(symbols, rule.class, &rule.part);
//! ```
#![tactic(auto)]

mod asked_vectors;
mod class_bits;
mod kinds;
mod number_test;
mod permission_test;
mod spans;
mod text_elements;
mod text_numbers;

pub use asked_vectors::AskedVectors;
pub use kinds::is_kind_asked;
pub use number_test::NumberTest;
pub use permission_test::PermissionTest;
pub use spans::Span;
pub use text_elements::elements;
pub use text_numbers::span_of;
