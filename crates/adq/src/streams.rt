//! The input read whole, the output written whole, and a fault told.
ghost use Rattle.std.specs.Prelude.{◌≡◌, ◌⊎◌, ◌++◌, Result, IfErr, IfSome, OnOk, ⊤};
ghost use Rattle.std.specs.Io.KnownBytes.{IsAtEnd};
ghost use Rattle.adq.specs.Run.{status_of, Writes};
ghost use Rattle.adq.specs.Text.{report_of};
ghost use Rattle.adq.specs.declared.fault.Fault.{Fault};
ghost use Rattle.adq.specs.declared.fault.Fault.TheVariants.{Memory, Io};

use crate::fault::Fault;
use std::fmt::{InlineText, Write};
use std::io::{self, ErrorKind, Read};

/// How many bytes of the input a read may give.
const PIECE: usize = 8192;

/// Appends the input, up to its end. A read takes no memory from the program, so a failed one is a
/// fault of the stream.
pub fn read<R: Read>(input: &mut R, text: &mut Vec<u8>) -> Result<(), Fault>
    ensures bytes { OnOk result (IfSome (R.remaining input.old)
        (λ xs. text.new.items ≡ text.old.items ++ xs)) }
    ensures end { OnOk result (IsAtEnd (R.remaining input.new)) }
    ensures failed { IfErr result (λ fault. (fault ≡ Memory) ⊎ (fault ≡ Io)) }
{
    let mut piece = [0; PIECE];
    for _ in 0..u64::MAX {
        match input.read(&mut piece) {
            Ok(0) => return Ok(()),
            Ok(count) => text.extend_from_slice(&piece[..count])?,
            Err(error) if error.kind() == ErrorKind::Interrupted => {}
            Err(_) => return Err(Fault::Io),
        }
    }
    // Most of so many reads were interrupted: no memory holds as many bytes.
    Err(Fault::Io)
}

/// Writes all of the output and flushes it, or writes some beginning of it.
pub fn write<W: io::Write>(output: &mut W, printed: &[u8]) -> Result<(), Fault>
    ensures { Writes (W.contents output.old) (W.contents output.new) printed.now result }
{
    let mut rest = printed;
    for _ in 0..u64::MAX {
        if rest.is_empty() {
            return Ok(output.flush()?);
        }
        match output.write(rest) {
            Ok(0) => return Err(Fault::Io),
            Ok(count) => rest = &rest[count..],
            Err(error) if error.kind() == ErrorKind::Interrupted => {}
            Err(_) => return Err(Fault::Io),
        }
    }
    // Most of so many writes were interrupted: no memory holds as many bytes.
    Err(Fault::Io)
}

impl Fault {
    /// Writes to `faults` why the run ends, and returns its status, also if the write fails.
    pub fn report<F: io::Write>(&self, faults: &mut F) -> u8
        ensures status { result ≡ status_of self.now }
        // The report is written whole or, if `told` is a fault, in part.
        ensures told { (told : Result ⊤ Fault) × Writes (F.contents faults.old)
            (F.contents faults.new) (report_of self.now) told }
    {
        let _ = self.tell(faults);
        self.status()
    }

    /// Writes to `faults` why the run ends, as a line, which is made without memory.
    pub fn tell<F: io::Write>(&self, faults: &mut F) -> Result<(), Fault>
        ensures { Writes (F.contents faults.old) (F.contents faults.new) (report_of self.now)
            result }
    {
        // The longest has 35 bytes.
        let mut line = InlineText::<64>::new();
        match writeln!(line, "adq: {self}") {
            Ok(()) => write(faults, line.as_str().as_bytes()),
            Err(_) => Err(Fault::Io),
        }
    }
}
