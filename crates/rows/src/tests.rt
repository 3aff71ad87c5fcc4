// Rows whose bytes are known.
use crate::reflector::Reflector;
use crate::refusal::RowRefusal;
use crate::row::Row;
use crate::temperature::Temperature;
use std::test::Fail;

// 2.40 mm at 15.0 degrees, to either side
#[test]
fn temperatures(rt: HostRuntime) -> Result<(), Fail> {
    let mut out = [0; 6];
    let plus = Temperature::new(150, 240)?;
    plus.write(&mut out)?;
    assert_eq!(rt; out, [0x54, 0x96, 0x00, 0x00, 0xf0, 0x00]);
    let minus = Temperature::new(150, -240)?;
    minus.write(&mut out)?;
    assert_eq!(rt; out, [0x54, 0x96, 0x00, 0xff, 0xf0, 0x00]);
    assert_eq!(rt; Temperature::read(&out)?, minus);
    Ok(())
}

#[test]
fn refused(rt: HostRuntime) -> Result<(), Fail> {
    let minus_zero = Temperature::read(&[0x54, 0x96, 0x00, 0xff, 0x00, 0x00]);
    assert_eq!(rt; u8::from(minus_zero.err().ok_or("a row")?), 12);
    let blank = Temperature::read(&[0xff; 6]);
    assert_eq!(rt; u8::from(blank.err().ok_or("a row")?), 11);
    let short = Temperature::read(&[0x54; 5]);
    assert_eq!(rt; u8::from(short.err().ok_or("a row")?), 1);
    Ok(())
}

#[test]
fn reflectors(rt: HostRuntime) -> Result<(), Fail> {
    let mut out = [0; 11];
    let prism = Reflector::new(*b"PRISM  7", -345)?;
    prism.write(&mut out)?;
    assert_eq!(rt; out, *b"RPRISM  7\xa7\xfe");
    Ok(())
}
