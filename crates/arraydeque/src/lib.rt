//! A double-ended queue of at most `CAP` items, in one region of memory, which is taken when the
//! deque is made and never grows.
//!
//! A deque is an [`ArrayDeque<T, CAP, B>`](ArrayDeque), whose type says the items, the capacity and
//! the policy. In all examples `rt` is the program's runtime and `alloc` is `rt.alloc()`.
//!
//! ```
//! let mut last_two = ArrayDeque::<i64, 2, Wrapping>::new(alloc)?;
//! last_two.extend_back([1, 2, 3]);
//! assert!(rt; last_two.push_back(4) == Some(2));
//! let mut queue: ArrayDeque<i64, 2, Saturating> = last_two.into();
//! assert!(rt; queue.push_back(5) == Err(CapacityError { element: 5 }));
//! assert!(rt; (queue.pop_front(), queue.pop_front()) == (Some(3), Some(4)));
//! ```
//!
//! There is more beside the deque: [`run`] makes a list of calls that are given as values, and
//! [`lookahead::Scanner`] looks ahead in an iterator. A deque of bytes is std's `Read` and
//! `BufRead`, and under [`Saturating`] also its `Write`.
//!
//! # Policies
//!
//! - [`Saturating`]: a push or an insert into a full deque returns its element in a
//!   [`CapacityError`]. `extend_back`, `extend_front`, `append` and `from_iter` take no more items
//!   than there is room for, and so does `write` of a deque of bytes.
//! - [`Wrapping`]: a push into a full deque removes the item at the other end, and returns it. An
//!   extend pushes its items one by one in this way, and drops those that are removed. `append`
//!   keeps the last items of both deques. There is no `insert`, and no `write`.
//!
//! A deque of capacity 0 is always empty and always full, and takes no memory. A push returns its
//! element: in the error under `Saturating`, and in place of an item under `Wrapping`.
//!
//! # What can fail
//!
//! - There may be no room, but only under `Saturating` and in [`lookahead::Scanner::unread`]. Then
//!   the element comes back in the [`CapacityError`].
//! - Memory may be refused, but only in `new`, `from_iter`, `from_vec`, `from_array`, `drain`,
//!   `split_off`, `into_vec`, `run` and `Scanner::new`, and in `clone`, also of a
//!   [`CapacityError`]. The `from_` calls, `into_vec`, `run` and `Scanner::new` hand back what they
//!   consumed, as it was, in a [`MakeError`].
//! - There may be no such item. Then a pop, `front`, `back`, `get`, `front_mut`, `back_mut`,
//!   `get_mut`, `remove`, `swap_remove_back` or `swap_remove_front` returns `None`.
//!
//! After each of these the deque is as it was.
//!
//! A `pop_front_if` or `pop_back_if` also returns `None` if its closure rejects the item, which
//! stays as the closure left it. `read` and `write` of a deque of bytes always return `Ok`, with
//! how many bytes went. If none went, `read_exact` and `write_all` fail.
//!
//! # What a call requires
//!
//! The caller has to show this, for instance by a test of `len`. `run` makes such tests itself.
//!
//! - `deque[index]` and `swap` require indexes below the length. `insert`, `split_off`,
//!   `rotate_left` and `rotate_right` require an index or a count up to the length.
//! - `drain`, `remove_range`, `range`, `range_mut` and `for_each_mut_in` require a range that is in
//!   order and ends within the list.
//! - `resize` requires a length up to `CAP`. (`truncate` and `truncate_front` take any.)
//! - `as_slice` and `as_mut_slice` require a list in one piece, as `linearize` leaves it.
//! - `extend_back`, `extend_front` and `from_iter` under [`Wrapping`], and `extend` under either
//!   policy, require an iterator that ends.
//! - `clone` requires that the clone of an item is the same value as the item, as with numbers.
//! - A call with an iterator or a closure requires that it may be called. A search and `next_if`
//!   may always call their closure. `retain`, `retain_mut` and `for_each_mut` may call theirs once
//!   on each item in turn, `for_each_mut_in` on those of its range, and `pop_front_if` and
//!   `pop_back_if` on the item at that end.
//! - Of a [`lookahead::Scanner`], `peek(k)` requires a k below its capacity, `read_ahead(k)` a k up
//!   to it, `ahead(k)` a k up to what it has read ahead, and `next_if` a capacity above 0.
//!
//! # What a call moves
//!
//! The lines `Start:` and `Steps:` of a call say by how many places the first item's place goes up
//! or down in the region, and how many values are put into a place, taken out, moved, exchanged or
//! lent for writing. A call without these lines leaves both as they were. Each item that moves
//! moves once, except in `linearize`.
#![tactic(auto)]

pub mod behavior;
mod deque;
mod error;
mod iter;
pub mod lookahead;
mod range;
pub mod run;

pub use behavior::{Saturating, Wrapping};
pub use deque::ArrayDeque;
pub use error::{CapacityError, MakeError};
pub use iter::{Drain, IntoIter, Iter, IterMut};
pub use range::RangeArgument;
