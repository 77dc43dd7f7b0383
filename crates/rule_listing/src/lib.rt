//! The lines of stored rules where many are listed, one after the other: what they have in common is made once.
//!
//! ```
//! let mut texts = ListedTexts::new(alloc, &policy)?;
//! let mut ahead = RulesAhead::new(&policy, &numbers);
//! while let Some(rule) = ahead.front() {
//!     texts.push_rule(rule, &mut line)?;
//!     ahead.pass();
//! }
//! ```
#![tactic(auto)]

mod kept_head;
mod kept_texts;
mod listed_rule;
mod listed_texts;
mod rules_ahead;

pub use listed_rule::ListedRule;
pub use listed_texts::ListedTexts;
pub use rules_ahead::RulesAhead;
