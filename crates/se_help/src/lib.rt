//! What the program says of itself: how it and its tools are used, and its version. Words ask for it by `--help`, `-h` or `--version`, alone
//! or behind a tool's name.
#![tactic(auto)]

mod texts;
mod topic;
mod topic_words;
mod topic_writing;

pub use topic::Topic;
pub use topic_words::topic_of;
pub use topic_writing::write_topic;
