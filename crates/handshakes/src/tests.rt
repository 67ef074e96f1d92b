// Datagrams byte for byte, which the clauses say in terms of definitions.
use crate::{Version, ends_in_zero, failure, hello, is_welcome, read_failure, read_hello, welcome};
use std::test::Fail;

#[test]
fn answers_are_spelled(rt: HostRuntime) -> Result<(), Fail> {
    let one = welcome(Version::One, 258);
    assert!(rt; one == [0x55, 0x4e, 0x52, 0x31, 2, 1, 2, 0]);
    assert!(rt; is_welcome(Version::One, 258, &one));
    assert!(rt; !is_welcome(Version::Two, 258, &one));
    assert!(rt; !is_welcome(Version::One, 257, &one));
    let two = failure(Version::Two, 3);
    assert!(rt; two == [0x55, 0x4e, 0x52, 0x32, 3, 3, 0]);
    assert!(rt; read_failure(Version::Two, &two) == Some(3));
    assert!(rt; read_failure(Version::One, &two).is_none());
    Ok(())
}

#[test]
fn a_hello_is_read_whole_or_not_at_all(rt: HostRuntime) -> Result<(), Fail> {
    let asked = hello(rt.alloc(), Version::Two, 1000, &[7; 20])?;
    let bytes = asked.as_slice();
    assert!(rt; bytes.len() == 28 && ends_in_zero(bytes));
    let Some(told) = read_hello(bytes) else {
        return Err(Fail::new("no Hello"));
    };
    assert!(rt; told.version == Version::Two && told.player == 1000);
    assert!(rt; told.digest == [7; 20].as_slice());
    assert!(rt; read_hello(&bytes[..27]).is_none());
    assert!(rt; read_hello(&bytes[1..]).is_none());
    assert!(rt; read_hello(&[]).is_none());
    Ok(())
}
