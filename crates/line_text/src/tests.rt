//! Each piece once, at the ends of its range, and the longest line.
use super::*;
use std::test::Fail;

#[test]
fn pieces(rt: HostRuntime) {
    let mut line: Line<80> = Line::new();
    line.add_text("a=");
    line.add_number(u32::MAX);
    line.add_text(" b=");
    line.add_number(i8::MIN);
    line.add_text(" c=");
    line.add_number(0u8);
    line.add_text(" d=");
    line.add_hex(&[0x00, 0x0F, 0xA5, 0xFF]);
    line.add_bytes(b"\n");
    assert_eq!(rt;
        line.as_slice(),
        b"a=4294967295 b=-128 c=0 d=000fa5ff\n".as_slice()
    );
}

#[test]
fn longest_line(rt: HostRuntime) -> Result<(), Fail> {
    let longest = [b'~'; 96];
    let held = LineText::from_slice(&longest).ok_or("96 bytes of ASCII")?;
    assert_eq!(rt; held.as_slice(), longest.as_slice());
    assert!(rt; LineText::from_slice(&[b'~'; 97]).is_none());
    assert!(rt; LineText::from_slice(&[0x80]).is_none());
    let mut line = Line::new();
    line.add_text("total ");
    assert_eq!(rt; LineText::from_line(&line).as_slice(), b"total ".as_slice());
    Ok(())
}
