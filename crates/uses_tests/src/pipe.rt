//! Bytes through a pipe that is shorter than the text.
use std::io;
use std::io::{ErrorKind, Write};
use std::test::Fail;
use uses::pipe::Pipe;

#[test]
fn a_full_pipe_takes_no_more(rt: HostRuntime) -> Result<(), Fail> {
    let mut pipe = Pipe::<4>::new(rt.alloc())?;
    assert!(rt; (pipe.write(b"abc"), pipe.write(b"def")) == (3, 1));
    let mut out = Vec::new(rt.alloc());
    pipe.read(&mut out)?;
    assert!(rt; out.as_slice() == b"abcd".as_slice());
    Ok(())
}

#[test]
fn a_long_text_comes_out_unchanged(rt: HostRuntime) -> Result<(), Fail> {
    let text = b"what was written comes out";
    let mut pipe = Pipe::<5>::new(rt.alloc())?;
    let mut out = Vec::new(rt.alloc());
    pipe.send(text, &mut out)?;
    assert!(rt; out.as_slice() == text.as_slice());
    Ok(())
}

/// A writer that takes at most so many bytes at each call, and fails once there is no number left.
#[derive(Drop)]
struct Slow<'a> {
    takes: &'a [usize],
    taken: Vec<u8>,
}

impl Write for Slow<'_> {
    fn write(&mut self, buf: &[u8]) -> io::Result<usize> {
        let Some((&most, takes)) = self.takes.split_first() else {
            return Err(ErrorKind::BrokenPipe.into());
        };
        self.takes = takes;
        let count = most.min(buf.len());
        self.taken.extend_from_slice(&buf[..count])?;
        Ok(count)
    }

    fn flush(&mut self) -> io::Result<()> {
        Ok(())
    }
}

#[test]
fn what_a_writer_leaves_still_waits(rt: HostRuntime) -> Result<(), Fail> {
    let mut pipe = Pipe::<4>::new(rt.alloc())?;
    let mut writer = Slow {
        takes: &[2, 0, 9, 9, 9],
        taken: Vec::new(rt.alloc()),
    };
    assert!(rt; pipe.write(b"abcd") == 4);
    let some = (pipe.write_to(&mut writer)?, pipe.write(b"efg"));
    // The slice up to the region's end goes first, and what wraps behind it with the next call.
    let none = pipe.write_to(&mut writer)?;
    let ends = (pipe.write_to(&mut writer)?, pipe.write_to(&mut writer)?);
    let nothing = pipe.write_to(&mut writer)?;
    assert!(rt; (some, none, ends, nothing) == ((2, 2), 0, (2, 2), 0));
    assert!(rt; pipe.write(b"hi") == 2 && pipe.write_to(&mut writer).is_err());
    let mut left = Vec::new(rt.alloc());
    pipe.read(&mut left)?;
    assert!(rt;
        left.as_slice() == b"hi".as_slice() && writer.taken.as_slice() == b"abcdef".as_slice()
    );
    Ok(())
}
