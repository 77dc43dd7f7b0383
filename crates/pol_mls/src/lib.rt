//! The levels and ranges of MLS, and the security contexts that have them: records of the policy format, and their texts.
//!
//! ```text
//! let context = read_context(&mut cursor)?;
//! let text = context_text(alloc, &context, &symbols)?;     // system_u:object_r:etc_t:s0 - s0:c0.c3
//! ```
#![tactic(auto)]

mod causes;
mod context_laws;
mod context_rec;
mod context_texts;
mod context_view;
mod context_write;
mod laws;
mod level_rec;
mod level_view;
mod level_write;
mod range_rec;
mod range_view;
mod range_write;
mod run;
mod run_text;
mod texts;

pub use context_laws::contexts_have_laws;
pub use context_rec::{ContextRec, ContextRecList};
pub use context_texts::context_text;
pub use context_view::{ContextView, context_end, read_context};
pub use laws::{levels_have_laws, ranges_have_laws};
pub use level_rec::{LevelRec, LevelRecList};
pub use level_view::{LevelView, read_level};
pub use pol_cursor::{
    write_record as write_context, write_record as write_level, write_record as write_range,
};
pub use range_rec::{RangeRec, RangeRecList};
pub use range_view::{RangeView, read_range};
pub use texts::{level_text, range_text};
