//! What comes of a short input, and the zeros behind its end.
use std::alloc::Global;
use std::test::Fail;
use uses::input::BufferedInput;

/// What four looks ahead show of an input of two characters, and what then is read past them.
fn looks(alloc: Global) -> Result<([char; 4], char, usize), Fail> {
    let mut input = BufferedInput::new(alloc, "ab".chars())?;
    input.lookahead(3);
    input.lookahead(1);
    let (first, third) = (input.peek(), input.peek_nth(2));
    input.skip_n(2);
    let behind = input.look_ch();
    input.skip();
    Ok((
        [first, third, behind, input.look_ch()],
        input.raw_read_ch(),
        input.buflen(),
    ))
}

#[test]
fn zeros_come_behind_the_end(rt: HostRuntime) -> Result<(), Fail> {
    assert!(rt; looks(rt.alloc())? == (['a', '\0', '\0', '\0'], '\0', 1));
    Ok(())
}

/// Reads a character within a line, if the buffer has room for another.
fn read<I: Iterator<Item = char>>(input: &mut BufferedInput<I>) -> Option<char> {
    if input.buflen() < input.bufmaxlen() {
        input.raw_read_non_breakz_ch()
    } else {
        None
    }
}

/// What three reads give of a line past the buffer, and what comes then.
fn line(alloc: Global, text: &str) -> Result<([Option<char>; 3], char), Fail> {
    let mut input = BufferedInput::new(alloc, text.chars())?;
    let chars = [read(&mut input), read(&mut input), read(&mut input)];
    Ok((chars, input.look_ch()))
}

#[test]
fn a_line_is_read_up_to_its_break(rt: HostRuntime) -> Result<(), Fail> {
    assert!(rt; line(rt.alloc(), "no\nx")? == ([Some('n'), Some('o'), None], '\n'));
    assert!(rt; line(rt.alloc(), "no")? == ([Some('n'), Some('o'), None], '\0'));
    Ok(())
}

/// What comes behind the first line of a text, and whether it alone is in the buffer.
fn behind_line(alloc: Global, text: &str, ahead: usize) -> Result<(char, usize), Fail> {
    let mut input = BufferedInput::new(alloc, text.chars())?;
    input.lookahead(ahead.min(input.bufmaxlen()));
    input.skip_while_non_breakz();
    let len = input.buflen();
    input.skip();
    Ok((input.look_ch(), len))
}

#[test]
fn a_line_is_skipped(rt: HostRuntime) -> Result<(), Fail> {
    assert!(rt; behind_line(rt.alloc(), "# no\nkey", 0)? == ('k', 1));
    assert!(rt; behind_line(rt.alloc(), "# no\nkey", 7)? == ('k', 3));
    assert!(rt; behind_line(rt.alloc(), "# no", 2)? == ('\0', 1));
    Ok(())
}
