ghost use Rattle.std.specs.Prelude.{◌+◌, ◌≤◌, length, vec_capacity};

use file_format::{put_u8, put_u16, put_u32, put_u64, u16_at, u32_at, u64_at, write_u64_at};
use std::test::Fail;

// Puts a number of each width.
#[tactic(auto, unfolding(file_format::specs::Number::number_bytes))]
fn put_each(bytes: &mut Vec<u8>)
    requires { length bytes.old.items + 15 ≤ vec_capacity bytes.old }
{
    put_u8(bytes, 0x01);
    put_u16(bytes, 0x0302);
    put_u32(bytes, 0x0706_0504);
    put_u64(bytes, 0x0f0e_0d0c_0b0a_0908);
}

#[test]
fn numbers_have_their_lowest_byte_first(rt: HostRuntime) -> Result<(), Fail> {
    let mut bytes = Vec::with_capacity(rt.alloc(), 15)?;
    put_each(&mut bytes);
    let spelled = [1, 2, 3, 4, 5, 6, 7, 8, 9, 10, 11, 12, 13, 14, 15];
    assert!(rt; bytes.as_slice() == spelled.as_slice());
    assert_eq!(rt; u16_at(&spelled, 1), 0x0302);
    assert_eq!(rt; u32_at(&spelled, 3), 0x0706_0504);
    assert_eq!(rt; u64_at(&spelled, 7), 0x0f0e_0d0c_0b0a_0908);
    Ok(())
}

#[test]
fn number_is_written_at_its_place(rt: HostRuntime) {
    let mut bytes = [9; 10];
    write_u64_at(&mut bytes, 1, 0x0706_0504_0302_0100);
    assert_eq!(rt; bytes, [9, 0, 1, 2, 3, 4, 5, 6, 7, 9]);
}
