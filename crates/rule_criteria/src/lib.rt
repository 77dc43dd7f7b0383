//! What a search for rules asks for, as words say it: kinds of rules, and texts that parts of a rule are compared with.
//!
//! The third word asks for rules whose source is `init_t` itself:
//!
//! ```text
//! let source = Criterion {
//!     text: CriterionText::from_string(text),
//!     word: 3,
//!     mode: Mode::Direct,
//! };
//! ```
#![tactic(auto)]

mod criteria;
mod criterion_text;

pub use criteria::{Criteria, Criterion, Mode};
pub use criterion_text::CriterionText;
