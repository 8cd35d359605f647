//! What a push into a full deque does: the policies.

/// A policy: what a push into a full deque does. This crate has two, [`Saturating`] and
/// [`Wrapping`]. A deque's type names one, and no call takes its value, which has nothing in it.
///
/// ```
/// let _policies = (Saturating, Wrapping);
/// assert!(rt; std::mem::size_of::<(Saturating, Wrapping)>() == 0);
/// ```
pub trait Behavior {}

/// Under this policy a push or an insert into a full deque returns its element in the error, and
/// changes nothing.
///
/// ```
/// let mut deque = ArrayDeque::<i64, 2, Saturating>::new(alloc)?;
/// deque.extend_back([1, 2, 3]);
/// assert!(rt; deque.push_front(0) == Err(CapacityError { element: 0 }));
/// assert!(rt; deque.into_vec()?.as_slice() == [1, 2].as_slice());
/// ```
#[derive(Drop)]
pub struct Saturating;

/// Under this policy a push into a full deque removes the item at the other end, and returns it. At
/// capacity 0 it returns the element itself. There is no insert.
///
/// ```
/// let mut deque = ArrayDeque::<i64, 2, Wrapping>::new(alloc)?;
/// deque.extend_back([1, 2, 3]);
/// assert!(rt; deque.push_front(0) == Some(3));
/// assert!(rt; deque.into_vec()?.as_slice() == [0, 2].as_slice());
/// ```
#[derive(Drop)]
pub struct Wrapping;

impl Behavior for Saturating {}

impl Behavior for Wrapping {}
