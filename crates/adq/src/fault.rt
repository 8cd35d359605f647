//! Why a run ends early.
ghost use Rattle.std.specs.Prelude.{◌≡◌, Some};
ghost use Rattle.adq.specs.Run.{status_of};
ghost use Rattle.adq.specs.Text.{fault_text};
ghost use Rattle.adq.specs.declared.fault.Fault.TheVariants.{Io, Memory};

use arraydeque::MakeError;
use std::alloc::{AllocError, AllocFailed};
use std::{fmt, io};

/// Why a run ends early.
#[derive(Drop)]
pub enum Fault {
    /// The arguments are not those of the program.
    Arguments,
    /// The line of this number, counted from 1, is not a call.
    Line(usize),
    /// Memory was refused.
    Memory,
    /// A read or a write failed.
    Io,
}

impl Fault {
    /// The status of a run that ends so.
    pub fn status(&self) -> u8
        ensures { result ≡ status_of self.now }
    {
        match self {
            Fault::Io => 1,
            Fault::Arguments | Fault::Line(_) => 2,
            Fault::Memory => 3,
        }
    }
}

impl fmt::Display for Fault {
    ghost output = { λ fault. Some (fault_text fault) };

    fn fmt<W: fmt::Write>(&self, f: &mut fmt::Formatter<W>) -> fmt::Result {
        match self {
            Fault::Arguments => write!(f, "bad arguments"),
            Fault::Line(number) => write!(f, "bad line {number}"),
            Fault::Memory => write!(f, "out of memory"),
            Fault::Io => write!(f, "input or output failed"),
        }
    }
}

impl From<AllocError> for Fault {
    ghost from_gives = { λ _ fault. fault ≡ Memory };

    fn from(_: AllocError) -> Fault {
        Fault::Memory
    }
}

impl<T: Drop> From<AllocFailed<T>> for Fault {
    ghost from_gives = { λ _ fault. fault ≡ Memory };

    fn from(_: AllocFailed<T>) -> Fault {
        Fault::Memory
    }
}

impl<S: Drop> From<MakeError<S>> for Fault {
    ghost from_gives = { λ _ fault. fault ≡ Memory };

    fn from(_: MakeError<S>) -> Fault {
        Fault::Memory
    }
}

/// A failed stream, whatever its error says. A refusal of memory to the program itself never comes
/// here.
impl From<io::Error> for Fault {
    ghost from_gives = { λ _ fault. fault ≡ Io };

    fn from(_: io::Error) -> Fault {
        Fault::Io
    }
}
