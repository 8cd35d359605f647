//! What a caller knows after a call of the deque. Each function makes a call or two, and promises
//! by their contracts alone what a user would ask for, in a form that the check finds.
//!
//! - [`calls`]: the list and the result, after most calls
//! - [`extending`]: the list, after an iterator's items were added
//! - [`writing`]: length and start, and some values, after a deque or a ring was written through
//! - [`scanning`]: what is left of a scanner
#![tactic(auto)]

pub mod calls;
pub mod extending;
pub mod scanning;
pub mod writing;
