//! What is read of an encoder, with little room too.
use std::io::{Read, Write};
use std::test::Fail;
use uses::encoder::Encoder;

#[test]
fn three_bytes_are_read_as_four_characters(rt: HostRuntime) -> Result<(), Fail> {
    let mut encoder = Encoder::<6>::new(rt.alloc())?;
    let mut text = [0; 4];
    let none = encoder.read(&mut text)?;
    let first = encoder.write(b"Ca")?;
    // The third byte has room for its text, and the sixth hasn't.
    let second = encoder.write(b"tCat")?;
    let read = encoder.read(&mut text)?;
    assert!(rt; (none, first, second, read) == (0, 2, 3, 4) && text == *b"0V%T");
    let third = encoder.write(b"t")?;
    let rest = encoder.read(&mut text)?;
    assert!(rt; (third, rest) == (1, 4) && text == *b"0V%T");
    Ok(())
}
