//! The outside world as the tools see it: files by slot, sinks for text, and patterns, in memory, sure, and those of the
//! system. A clause names what one of them stands for by one record: a `SlotState` a slot, a `SinkState`, a `PatternsState`.
//!
//! A run over bytes that are at hand, whose message nobody reads:
//!
//! ```
//! let mut files = SureFiles::new(&policy, &map);
//! let mut patterns = RegexPatterns::new();
//! let mut out = MemSink::new(alloc, 1_048_576)?;
//! let mut err = SureSink::new();
//! let status = run(alloc, &words, &mut files, &mut patterns, &mut out, &mut err);
//! ```
#![tactic(auto)]

mod counts;
mod files;
mod mem_files;
mod mem_patterns;
mod mem_sink;
mod mem_slot;
mod patterns;
mod plan;
mod real;
mod regex_patterns;
mod sink;
mod sure;

pub use files::{Failed, Files, Slot};
pub use mem_files::MemFiles;
pub use mem_patterns::MemPatterns;
pub use mem_sink::MemSink;
pub use patterns::{PatternError, PatternKind, Patterns};
pub use real::{RealFiles, RealSink};
pub use regex_patterns::RegexPatterns;
pub use sink::Sink;
pub use sure::{SureFiles, SureSink};
