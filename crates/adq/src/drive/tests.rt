//! The program over streams in memory: tables of lines, and streams that fail.
mod rows;
mod streams;

use self::rows::{
    BAD, BAD_ARGUMENTS, CALLS, EVERY_CALL, FAILED, NOT_TEXT, ON_EACH, REPLIES, RUNS, WORDS,
};
use self::streams::{Calls, Input, Output};
use super::drive;
use std::alloc::{AllocError, Global};
use std::fmt::Write;
use std::io;
use std::io::ErrorKind;
use std::test::Fail;

/// The words after the program's name.
fn args_of(alloc: Global, words: &str) -> Result<Vec<String>, AllocError> {
    let mut args = Vec::new(alloc);
    for word in words.split(' ') {
        if !word.is_empty() {
            args.push(String::from_str(alloc, word)?)?;
        }
    }
    Ok(args)
}

/// Whether a run over these streams ends with this status, and they hold what is due.
fn ends(
    alloc: Global,
    words: &str,
    input: &mut Input<'_>,
    mut output: Output<'_>,
    mut faults: Output<'_>,
    status: u8,
) -> Result<bool, AllocError> {
    let args = args_of(alloc, words)?;
    let ended = drive(alloc, args.as_slice(), input, &mut output, &mut faults);
    Ok(ended == status && output.is_due() && faults.is_due())
}

/// Whether this input is run to its end and prints this.
fn prints(alloc: Global, words: &str, input: &[u8], text: &str) -> Result<bool, AllocError> {
    let whole = Calls::whole();
    let output = Output::new(alloc, text, whole);
    let faults = Output::new(alloc, "", whole);
    ends(
        alloc,
        words,
        &mut Input::new(input, whole),
        output,
        faults,
        0,
    )
}

/// Whether the run ends with this fault and prints nothing.
fn refuses(
    alloc: Global,
    words: &str,
    input: &mut Input<'_>,
    fault: &str,
    status: u8,
) -> Result<bool, AllocError> {
    let output = Output::new(alloc, "", Calls::whole());
    let faults = Output::new(alloc, fault, Calls::whole());
    ends(alloc, words, input, output, faults, status)
}

/// Whether the first bad line of this input has this number.
fn blames(alloc: Global, words: &str, input: &[u8], number: usize) -> Result<bool, AllocError> {
    let fault = format!(in alloc; "adq: bad line {number}\n")?;
    let mut input = Input::new(input, Calls::whole());
    refuses(alloc, words, &mut input, fault.as_str(), 2)
}

#[test]
fn runs_have_their_outputs(rt: HostRuntime) -> Result<(), Fail> {
    for (words, input, text) in RUNS {
        assert!(rt;
            prints(rt.alloc(), words, input.as_bytes(), text)?,
            "{words}: {input}"
        );
    }
    for (words, text) in ON_EACH {
        assert!(rt;
            prints(rt.alloc(), words, EVERY_CALL.as_bytes(), text)?,
            "{words}"
        );
    }
    Ok(())
}

/// A line of this word and so many numbers.
fn line_of(alloc: Global, word: &str, count: usize) -> Result<String, AllocError> {
    let mut line = String::from_str(alloc, word)?;
    for _ in 0..count {
        line.push_str(" 0")?;
    }
    Ok(line)
}

/// Whether a line of this word and so many numbers is good.
fn names(alloc: Global, word: &str, count: usize) -> Result<bool, AllocError> {
    let args = args_of(alloc, "sat 3")?;
    let line = line_of(alloc, word, count)?;
    let ended = drive(
        alloc,
        args.as_slice(),
        &mut line.as_bytes(),
        &mut io::sink(),
        &mut io::sink(),
    );
    Ok(ended == 0)
}

/// Whether a line of this word and so many numbers is bad.
fn is_bad(alloc: Global, word: &str, count: usize) -> Result<bool, AllocError> {
    blames(alloc, "sat 3", line_of(alloc, word, count)?.as_bytes(), 1)
}

/// Each word names a call with its count of numbers alone, an extend with any, and neither in
/// capitals nor cut short by a letter.
#[test]
fn each_word_has_its_spelling(rt: HostRuntime) -> Result<(), Fail> {
    let alloc = rt.alloc();
    for (word, count) in WORDS {
        let capitals = word.to_ascii_uppercase(alloc)?;
        let mut short = String::from_str(alloc, word)?;
        short.pop();
        assert!(rt; names(alloc, word, count)?, "{word}");
        assert!(rt;
            is_bad(alloc, capitals.as_str(), count)? && is_bad(alloc, short.as_str(), count)?,
            "{word}"
        );
        assert!(rt;
            word.starts_with("extend") == names(alloc, word, count.saturating_add(1))?
                && (count == 0 || is_bad(alloc, word, count - 1)?),
            "{word}"
        );
    }
    Ok(())
}

#[test]
fn bad_lines_are_blamed(rt: HostRuntime) -> Result<(), Fail> {
    for words in ["sat 1", "sat 2", "sat 3", "wrap 3"] {
        for (input, number) in BAD {
            assert!(rt;
                blames(rt.alloc(), words, input.as_bytes(), number)?,
                "{words}: {input}"
            );
        }
    }
    for (input, number) in NOT_TEXT {
        assert!(rt; blames(rt.alloc(), "sat 3", input, number)?, "{input:?}");
    }
    Ok(())
}

/// Where the arguments are bad, nothing is read, whether it could be or not.
#[test]
fn bad_arguments_are_refused(rt: HostRuntime) -> Result<(), Fail> {
    let fails = Calls::failing(1, 0, usize::MAX, ErrorKind::Other);
    for words in BAD_ARGUMENTS {
        for calls in [Calls::whole(), fails] {
            let mut input = Input::new(b"len", calls);
            assert!(rt;
                refuses(rt.alloc(), words, &mut input, "adq: bad arguments\n", 2)?
                    && input.reads() == 0,
                "{words}"
            );
        }
    }
    Ok(())
}

/// Whether a run ends with status 1, after some beginning of what it prints, if calls of its output
/// fail.
fn fails(
    alloc: Global,
    words: &str,
    input: &[u8],
    text: &str,
    calls: Calls,
) -> Result<bool, AllocError> {
    let output = Output::new(alloc, text, calls);
    let faults = Output::new(alloc, FAILED, Calls::whole());
    let mut input = Input::new(input, Calls::whole());
    ends(alloc, words, &mut input, output, faults, 1)
}

/// Where each call moves one byte, all is read and written, and a read that is interrupted is made
/// again. Then each call of the input fails in turn, alone or with all that follow, also that which
/// would find its end; and each of the output, its flush too.
#[test]
fn a_read_or_a_write_that_fails_ends_the_run(rt: HostRuntime) -> Result<(), Fail> {
    let input = CALLS.as_bytes();
    let slow = Calls::failing(1, usize::MAX, 0, ErrorKind::Other);
    for reads in [slow, Calls::failing(1, 3, 5, ErrorKind::Interrupted)] {
        let output = Output::new(rt.alloc(), REPLIES, slow);
        let faults = Output::new(rt.alloc(), "", slow);
        let mut source = Input::new(input, reads);
        assert!(rt; ends(rt.alloc(), "sat 3", &mut source, output, faults, 0)?);
    }
    for kind in [ErrorKind::BrokenPipe, ErrorKind::OutOfMemory] {
        for call in 0..=input.len() {
            for last in [call, usize::MAX] {
                let calls = Calls::failing(1, call, last, kind);
                let mut source = Input::new(input, calls);
                assert!(rt;
                    refuses(rt.alloc(), "sat 3", &mut source, FAILED, 1)?
                        && (call > REPLIES.len()
                            || fails(rt.alloc(), "sat 3", input, REPLIES, calls)?),
                    "{kind:?} at {call}"
                );
            }
        }
    }
    Ok(())
}

/// More lines, replies and numbers than a reader's piece or a writer's buffer holds, some 200,000
/// bytes, and each of the first twenty writes of the replies fails in turn.
#[test]
fn a_long_run_is_whole(rt: HostRuntime) -> Result<(), Fail> {
    let mut lines = String::from_str(rt.alloc(), "push_back 0\n")?;
    let mut extend = String::from_str(rt.alloc(), "extend_back")?;
    let mut refused = String::from_str(rt.alloc(), "full 0\n")?;
    let mut displaced = String::from_str(rt.alloc(), "none\n")?;
    for number in 0..10_000 {
        let next = number + 1;
        write!(lines, "push_back {next}\n")?;
        write!(extend, " {next}")?;
        write!(refused, "full {next}\n")?;
        write!(displaced, "{number}\n")?;
    }
    write!(lines, "{extend}")?;
    write!(refused, "ok\nlist: []\n")?;
    write!(displaced, "ok\nlist: [10000]\n")?;
    let input = lines.as_bytes();
    assert!(rt; prints(rt.alloc(), "sat 0", input, refused.as_str())?);
    assert!(rt; prints(rt.alloc(), "wrap 1", input, displaced.as_str())?);
    for call in 0..20 {
        let calls = Calls::failing(4096, call, call, ErrorKind::Other);
        assert!(rt;
            fails(rt.alloc(), "sat 0", input, refused.as_str(), calls)?,
            "at {call}"
        );
    }
    Ok(())
}

/// Each call of the stream that a fault is told on fails in turn, alone or with all that follow.
#[test]
fn a_fault_that_is_not_told_has_the_same_status(rt: HostRuntime) -> Result<(), Fail> {
    let rows = [
        ("sat 4", usize::MAX, "adq: bad arguments\n", 2),
        ("sat 3", usize::MAX, "adq: bad line 1\n", 2),
        ("sat 3", 0, FAILED, 1),
    ];
    for (words, read, fault, status) in rows {
        for call in 0..=fault.len() {
            for last in [call, usize::MAX] {
                let reads = Calls::failing(1, read, usize::MAX, ErrorKind::Other);
                let mut input = Input::new(b"x", reads);
                let output = Output::new(rt.alloc(), "", Calls::whole());
                let calls = Calls::failing(1, call, last, ErrorKind::OutOfMemory);
                let faults = Output::new(rt.alloc(), fault, calls);
                assert!(rt;
                    ends(rt.alloc(), words, &mut input, output, faults, status)?,
                    "{words} at {call}"
                );
            }
        }
    }
    Ok(())
}

/// Under either policy, at each capacity, memory was asked for the words and the deque's region
/// alone when the first read fails.
#[test]
fn a_deque_is_made_before_the_input_is_read_54_requests_1823_bytes(
    rt: HostRuntime,
) -> Result<(), Fail> {
    let calls = Calls::failing(1, 0, 0, ErrorKind::Other);
    for (words, _) in ON_EACH {
        let args = args_of(rt.alloc(), words)?;
        let mut input = Input::new(b"len", calls);
        let status = drive(
            rt.alloc(),
            args.as_slice(),
            &mut input,
            &mut io::sink(),
            &mut io::sink(),
        );
        assert!(rt; status == 1 && input.reads() == 1, "{words}");
    }
    Ok(())
}
