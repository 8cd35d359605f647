//! The iterators of a deque. A contract sees each as the list of the items that remain.
mod closure;
mod drain;
mod into_iter;
mod iter;
mod iter_mut;

pub use drain::Drain;
pub use into_iter::IntoIter;
pub use iter::Iter;
pub use iter_mut::IterMut;
