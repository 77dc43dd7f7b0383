//! The answer of a tool over a graph of types, as sedta and seinfoflow are: types that words name, the rules that count where states of
//! booleans are stated, and the edges and walks of the graph, each with its text. A tool gives its graph, the words of its texts, and what
//! is asked.
//!
//! What users call a path is a walk here: nodes and edges may come again in one, and only a walk that has no node twice, as each shortest one, is
//! a path in the sense of graphs. `Path` stands in texts and options alone.
#![tactic(auto)]

mod edge_items;
mod edge_texts;
mod ends_texts;
mod graph_items;
mod stated_rules;
mod type_names;
mod unknown_names;
mod walk_items;
mod walk_kinds;
mod walk_texts;
mod walks;
mod writing;

pub use edge_texts::EdgeTexts;
pub use graph_items::{Ends, write_items};
pub use stated_rules::rules_asked;
pub use type_names::{ends_named, excluded_set};
pub use unknown_names::first_unknown;
