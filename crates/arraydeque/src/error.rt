//! What a refused call gives back.
ghost use Rattle.std.specs.Prelude.{◌≡◌, Some, codes};
ghost use Rattle.std.specs.IoError.{error_kind};
ghost use Rattle.std.specs.declared.io.ErrorKind.TheVariants.{OutOfMemory, StorageFull};

use std::alloc::AllocError;
use std::error::Error;
use std::{fmt, io};

/// The error of a call that found the deque full: the element comes back in it, and nothing has
/// changed.
///
/// Two such errors compare as their elements do. The text is always `insufficient capacity`.
///
/// ```
/// let mut deque = ArrayDeque::<i64, 0, Saturating>::new(alloc)?;
/// let refusal = CapacityError { element: 7 };
/// assert!(rt; deque.push_back(7) == Err(refusal));
/// assert!(rt; refusal.element == 7);
/// let text = format!(in alloc; "{refusal}")?;
/// assert!(rt; text.as_str() == "insufficient capacity");
/// ```
#[derive(Clone, Copy, Drop, Eq, Ord, PartialEq, PartialOrd)]
pub struct CapacityError<T> {
    /// The element that was handed in.
    pub element: T,
}

impl<T: Drop> Error for CapacityError<T> {}

impl<T> fmt::Display for CapacityError<T> {
    ghost output = { λ _. Some (codes "insufficient capacity") };

    /// ```
    /// let text = format!(in alloc; "{}", CapacityError { element: 7 })?;
    /// assert!(rt; text.as_str() == "insufficient capacity");
    /// ```
    fn fmt<W: fmt::Write>(&self, f: &mut fmt::Formatter<W>) -> fmt::Result {
        f.write_str("insufficient capacity")
    }
}

impl<T> fmt::Debug for CapacityError<T> {
    ghost debug_output = { λ _. Some (codes "CapacityError: insufficient capacity") };

    /// ```
    /// let text = format!(in alloc; "{:?}", CapacityError { element: 7 })?;
    /// assert!(rt; text.as_str() == "CapacityError: insufficient capacity");
    /// ```
    fn fmt<W: fmt::Write>(&self, f: &mut fmt::Formatter<W>) -> fmt::Result {
        f.write_str("CapacityError: insufficient capacity")
    }
}

impl<T: Drop> From<CapacityError<T>> for io::Error {
    ghost from_gives = { λ _ error. error_kind error ≡ StorageFull };

    /// Drops the element. The error's kind is `StorageFull`.
    ///
    /// ```
    /// let refusal = CapacityError { element: 7 };
    /// assert!(rt; std::io::Error::from(refusal).kind() == std::io::ErrorKind::StorageFull);
    /// ```
    fn from(_refusal: CapacityError<T>) -> io::Error {
        io::ErrorKind::StorageFull.into()
    }
}

/// The error of a call that was refused memory: what the call consumed comes back in it, as it was
/// handed in.
///
/// The text is always `out of memory`.
///
/// ```
/// // No region is as large as that.
/// let made = ArrayDeque::<i64, { usize::MAX }, Saturating>::from_array(alloc, [1, 2]);
/// assert!(rt; made.err().map(|refusal| refusal.source) == Some([1, 2]));
/// let text = format!(in alloc; "{}", MakeError { source: 0 })?;
/// assert!(rt; text.as_str() == "out of memory");
/// ```
#[derive(Drop)]
pub struct MakeError<S> {
    /// What was handed in.
    pub source: S,
}

impl<S: Drop> Error for MakeError<S> {}

impl<S> fmt::Display for MakeError<S> {
    ghost output = { λ _. Some (codes "out of memory") };

    /// ```
    /// let text = format!(in alloc; "{}", MakeError { source: [1, 2] })?;
    /// assert!(rt; text.as_str() == "out of memory");
    /// ```
    fn fmt<W: fmt::Write>(&self, f: &mut fmt::Formatter<W>) -> fmt::Result {
        f.write_str("out of memory")
    }
}

impl<S> fmt::Debug for MakeError<S> {
    ghost debug_output = { λ _. Some (codes "out of memory") };

    /// ```
    /// let text = format!(in alloc; "{:?}", MakeError { source: [1, 2] })?;
    /// assert!(rt; text.as_str() == "out of memory");
    /// ```
    fn fmt<W: fmt::Write>(&self, f: &mut fmt::Formatter<W>) -> fmt::Result {
        fmt::Display::fmt(self, f)
    }
}

impl<S: Drop> From<MakeError<S>> for AllocError {
    /// Drops what was handed in, so that `?` serves if only the refusal counts.
    ///
    /// ```
    /// let deque = ArrayDeque::<i64, 2, Saturating>::from_array(alloc, [1, 2])?;
    /// assert!(rt; deque.len() == 2);
    /// ```
    fn from(_refusal: MakeError<S>) -> AllocError {
        AllocError
    }
}

impl<S: Drop> From<MakeError<S>> for io::Error {
    ghost from_gives = { λ _ error. error_kind error ≡ OutOfMemory };

    /// Drops what was handed in. The error's kind is `OutOfMemory`.
    ///
    /// ```
    /// let error = std::io::Error::from(MakeError { source: [1, 2] });
    /// assert!(rt; error.kind() == std::io::ErrorKind::OutOfMemory);
    /// ```
    fn from(_refusal: MakeError<S>) -> io::Error {
        AllocError.into()
    }
}
