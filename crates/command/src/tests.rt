// Examples of lines, and of digits.

use crate::hex::decode;
use crate::line::{Command, parse};
use crate::mistake::Mistake;
use std::test::Fail;

#[test]
fn digits_stand_for_bytes(rt: HostRuntime) -> Result<(), Fail> {
    let bytes = decode(rt.alloc(), b" 00 fF\t524C\r\n")?;
    assert_eq!(rt; bytes.as_slice(), [0x00, 0xFF, 0x52, 0x4C].as_slice());
    Ok(())
}

#[test]
fn mistaken_digits_are_told(rt: HostRuntime) {
    let heap = rt.alloc();
    assert_eq!(rt; decode(heap, b"524").err(), Some(Mistake::LoneDigit));
    assert_eq!(rt; decode(heap, b"5 24").err(), Some(Mistake::LoneDigit));
    assert_eq!(rt; decode(heap, b"5g").err(), Some(Mistake::NoDigit(b'g')));
}

#[test]
fn a_line_gives_its_command(rt: HostRuntime) {
    assert_eq!(rt;
        parse(b" load  some.manual \n"),
        Ok(Some(Command::Load(b"some.manual")))
    );
    assert_eq!(rt; parse(b"check\n"), Ok(Some(Command::Check)));
    assert_eq!(rt; parse(b" # check\n"), Ok(None));
}

#[test]
fn a_mistaken_line_is_told(rt: HostRuntime) {
    assert_eq!(rt; parse(b"checks"), Err(Mistake::Unknown));
    assert_eq!(rt; parse(b"check it"), Err(Mistake::Superfluous));
    assert_eq!(rt; parse(b"load "), Err(Mistake::NoFile));
}
