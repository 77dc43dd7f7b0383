//! What the words of a command line ask for: one request a tool, by the tool's table of options, which stands in `specs/..Request.antt` and
//! in `src/.._options.rt`.
//!
//! ```
//! let mut words = Words::new(alloc);
//! words.push("seinfo")?;
//! words.push("policy.33")?;
//! if let Request::Info(asks) = request_of(alloc, &words)? { .. }
//! ```
#![tactic(auto)]

mod asked;
mod check_options;
mod check_request;
mod convert_options;
mod convert_request;
mod dom_options;
mod dom_request;
mod flow_options;
mod flow_request;
mod info_options;
mod info_request;
mod laws;
mod make_options;
mod make_request;
mod process_words;
mod question;
mod request;
mod search_criteria;
mod search_options;
mod search_request;
mod walk_options;
mod window;
mod words_error;

pub use check_request::CheckRequest;
pub use convert_request::ConvertRequest;
pub use dom_request::DomRequest;
pub use flow_request::FlowRequest;
pub use info_request::{InfoRequest, Wanted};
pub use laws::later_words_ask_for_pages;
pub use make_request::MakeRequest;
pub use process_words::words_of_bytes;
pub use question::Question;
pub use request::{Request, request_of};
pub use se_words::{Named, State, Word, Words};
pub use search_request::SearchRequest;
pub use words_error::WordsError;
