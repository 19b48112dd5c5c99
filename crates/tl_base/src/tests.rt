//! Worked values.

use super::{
    big_i16, big_u24, big_u32, big_uint, fold8, little_u32, median3, parity, put_big_i16,
    put_big_u24, put_big_u32, put_big_u64,
};
use std::test::Fail;

#[test]
fn worked_values(rt: HostRuntime) -> Result<(), Fail> {
    assert_eq!(rt; parity(&[]), 0);
    assert_eq!(rt; parity(&[0x01]), 0x04C1_1DB7);
    assert_eq!(rt; parity(&[0x02]), 0x0982_3B6E);
    assert_eq!(rt; parity(&[0x01, 0x04, 0xC1, 0x1D, 0xB7]), 0);
    assert_eq!(rt; fold8(128), -128);
    assert_eq!(rt; fold8(-129), 127);
    assert_eq!(rt; fold8(i32::MAX), -1);
    assert_eq!(rt; median3(10, 20, 15), 15);
    assert_eq!(rt; median3(10, 20, 0), 10);
    assert_eq!(rt; median3(200, 250, 350), 250);
    Ok(())
}

#[test]
fn numbers(rt: HostRuntime) -> Result<(), Fail> {
    let mut bytes = [0; 8];
    put_big_u64(&mut bytes, 0x0102_0304_0506_0708);
    assert_eq!(rt; bytes, [1, 2, 3, 4, 5, 6, 7, 8]);
    assert_eq!(rt; big_uint(&bytes[..5]), 0x01_0203_0405);
    assert_eq!(rt; big_uint(&[]), 0);
    assert_eq!(rt;
        (big_u24(&bytes), big_u32(&bytes), little_u32(&bytes)),
        (0x01_0203, 0x0102_0304, 0x0403_0201)
    );
    put_big_i16(&mut bytes, -2);
    assert_eq!(rt; big_i16(&bytes), -2);
    put_big_u32(&mut bytes, 0xA0B0_C0D0);
    put_big_u24(&mut bytes, 0x01_0203);
    assert_eq!(rt; bytes, [1, 2, 3, 0xD0, 5, 6, 7, 8]);
    Ok(())
}
