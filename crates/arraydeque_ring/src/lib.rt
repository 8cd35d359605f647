//! A list of items in one region of memory, on which a deque of fixed capacity is built.
//!
//! A [`Ring`] is a list of items that wraps round the region's end. Its capacity is given at run
//! time, and it has no policy: a push requires room. In all examples `alloc` is `rt.alloc()`.
//!
//! ```
//! let mut ring = Ring::new(alloc, 2)?;
//! ring.push_back(1);
//! ring.push_front(0);
//! assert!(rt; ring.len() == ring.capacity());
//! assert!(rt; (ring.pop_front(), ring.pop_front()) == (Some(0), Some(1)));
//! ```
//!
//! [`slots`] is the region: places that each hold a value or nothing. No other module has raw
//! pointers.
#![tactic(auto)]

pub mod ring;
pub mod slots;
mod wrap;

pub use ring::Ring;
pub use ring::into_iter::IntoIter;
pub use slots::Slots;
