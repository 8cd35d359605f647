//! Uses of the deque, to be read as examples. Each is proved, over the deque's public contracts
//! alone, to keep what its users care about.
//!
//! - [`window`]: the last samples and their sum
//! - [`average`]: the mean of the last samples, at each
//! - [`filter`]: signed samples, weighted and added up
//! - [`history`]: undo and redo
//! - [`pipe`]: bytes for a writer that may take only some of them
//! - [`reorder`]: pieces that come early wait in order
//! - [`moving`]: items moved from one deque to another, a few at a time
//! - [`copying`]: bytes copied from one deque to another, or to a vector; a line taken out
//! - [`limiter`]: requests per span of time
//! - [`jobs`]: a work queue, under either policy
//! - [`ageing`]: entries that age, and are removed when their time is over
//! - [`peaks`]: the greatest of the last samples
//! - [`median`]: a running median, in a second, sorted deque
//! - [`log`]: a log that has no state twice in a row, and one of lines
//! - [`tokens`]: a tokenizer with one byte of look-ahead
//! - [`input`]: the look-ahead buffer of a YAML scanner
//! - [`edits`]: edits of one kind in a row made one, by looking ahead
//! - [`journal`]: entries that are found by their times
//! - [`tree`]: a tree whose forks have at most four branches, and a count of its nodes
//! - [`encoder`]: three bytes in, four characters out; both a writer and a reader
//! - [`in_place`]: a deque sorted, filled and searched
#![tactic(auto)]

pub mod ageing;
pub mod average;
pub mod copying;
pub mod edits;
pub mod encoder;
pub mod filter;
pub mod history;
pub mod in_place;
pub mod input;
pub mod jobs;
pub mod journal;
pub mod limiter;
pub mod log;
pub mod median;
pub mod moving;
pub mod peaks;
pub mod pipe;
pub mod reorder;
pub mod tokens;
pub mod tree;
pub mod window;
