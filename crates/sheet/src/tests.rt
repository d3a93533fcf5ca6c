use crate::key;
use crate::refusal::Refusal;
use crate::size::Size;
use std::test::Fail;

#[test]
fn sizes(rt: HostRuntime) -> Result<(), Fail> {
    assert_eq!(rt; Size::new(0, 5), Err(Refusal::BadSize));
    assert_eq!(rt; Size::new(5, 0), Err(Refusal::BadSize));
    assert_eq!(rt; Size::new(1025, 1), Err(Refusal::BadSize));
    assert_eq!(rt; Size::new(1, 1025), Err(Refusal::BadSize));
    assert_eq!(rt; Size::new(1024, 1024)?.pixels(), 1048576);
    Ok(())
}

#[test]
fn places(rt: HostRuntime) -> Result<(), Fail> {
    let size = Size::new(4, 2)?;
    assert_eq!(rt; size.place(1, 3), Ok(7));
    assert_eq!(rt; size.place(2, 0), Err(Refusal::OutOfRange));
    assert_eq!(rt; size.place(0, 4), Err(Refusal::OutOfRange));
    assert_eq!(rt; size.pixel(7), Ok((1, 3)));
    assert_eq!(rt; size.pixel(8), Err(Refusal::OutOfRange));
    assert_eq!(rt; size.check_memory(8), Ok(()));
    assert_eq!(rt; size.check_memory(7), Err(Refusal::ShortMemory));
    Ok(())
}

#[test]
fn keys(rt: HostRuntime) {
    assert_eq!(rt; key::pack(10, 0), 10485760);
    assert_eq!(rt; key::pack(1, 3), 1048579);
    assert_eq!(rt; key::step(key::pack(1, 3), 2), key::pack(3, 3));
    assert_eq!(rt; key::step(key::BLANK, 1), key::BLANK);
    assert_eq!(rt; key::reading(1048579), Some((1, 3)));
    assert_eq!(rt; key::reading(key::BLANK), None);
}

#[test]
fn numbers(rt: HostRuntime) {
    assert_eq!(rt; u32::from(Refusal::BadSize), 1);
    assert_eq!(rt; u32::from(Refusal::ShortMemory), 2);
    assert_eq!(rt; u32::from(Refusal::OutOfRange), 4);
}

#[test]
fn later_numbers(rt: HostRuntime) {
    assert_eq!(rt; u32::from(Refusal::WrongState), 3);
    assert_eq!(rt; u32::from(Refusal::LongText), 9);
}
