ghost use Rattle.std.specs.Prelude.{◌≡◌, ◌+◌, ◌^◌, ◌<◌, ◌≤◌, ◌++◌, ◌∷◌, [], ℕ, List, length, take};
ghost use Rattle.std.specs.Prelude.{drop, vec_capacity};
ghost use Rattle.file_format.specs.Number.{IsBytes, number_bytes, number_of};

use byteorder::{ByteOrder, LittleEndian};

/// Returns the number in the two bytes from a place on.
pub fn u16_at(bytes: &[u8], place: usize) -> u16
    requires { place + 2 ≤ length bytes.now }
    ensures { result ≡ number_of 2 (drop place bytes.now) }
{
    LittleEndian::read_u16(&bytes[place..])
}

/// Returns the number in the four bytes from a place on.
pub fn u32_at(bytes: &[u8], place: usize) -> u32
    requires { place + 4 ≤ length bytes.now }
    ensures { result ≡ number_of 4 (drop place bytes.now) }
{
    LittleEndian::read_u32(&bytes[place..])
}

/// Returns the number in the eight bytes from a place on.
pub fn u64_at(bytes: &[u8], place: usize) -> u64
    requires { place + 8 ≤ length bytes.now }
    ensures { result ≡ number_of 8 (drop place bytes.now) }
{
    LittleEndian::read_u64(&bytes[place..])
}

/// Appends a byte, for which there is room.
pub fn put_u8(bytes: &mut Vec<u8>, number: u8)
    requires { length bytes.old.items + 1 ≤ vec_capacity bytes.old }
    ensures put { bytes.new.items ≡ bytes.old.items ++ number ∷ [] }
    ensures capacity { vec_capacity bytes.old ≤ vec_capacity bytes.new }
{
    let _ = bytes.push(number);
}

/// Appends a number of two bytes, for which there is room.
#[tactic(auto, unfolding(crate::specs::Number::number_bytes))]
pub fn put_u16(bytes: &mut Vec<u8>, number: u16)
    requires { length bytes.old.items + 2 ≤ vec_capacity bytes.old }
    ensures put { bytes.new.items ≡ bytes.old.items ++ number_bytes 2 number }
    ensures capacity { vec_capacity bytes.old ≤ vec_capacity bytes.new }
{
    let spelled: [u8; 2] = number.to_le_bytes();
    let _ = bytes.extend_from_slice(&spelled);
}

/// Appends a number of four bytes, for which there is room.
#[tactic(auto, unfolding(crate::specs::Number::number_bytes))]
pub fn put_u32(bytes: &mut Vec<u8>, number: u32)
    requires { length bytes.old.items + 4 ≤ vec_capacity bytes.old }
    ensures put { bytes.new.items ≡ bytes.old.items ++ number_bytes 4 number }
    ensures capacity { vec_capacity bytes.old ≤ vec_capacity bytes.new }
{
    let spelled: [u8; 4] = number.to_le_bytes();
    let _ = bytes.extend_from_slice(&spelled);
}

/// Appends a number of eight bytes, for which there is room.
#[tactic(auto, unfolding(crate::specs::Number::number_bytes))]
pub fn put_u64(bytes: &mut Vec<u8>, number: u64)
    requires { length bytes.old.items + 8 ≤ vec_capacity bytes.old }
    ensures put { bytes.new.items ≡ bytes.old.items ++ number_bytes 8 number }
    ensures capacity { vec_capacity bytes.old ≤ vec_capacity bytes.new }
{
    let spelled: [u8; 8] = number.to_le_bytes();
    let _ = bytes.extend_from_slice(&spelled);
}

/// Writes a number over the eight bytes from a place on.
#[tactic(auto, unfolding(crate::specs::Number::number_bytes))]
pub fn write_u64_at(bytes: &mut [u8], place: usize, number: u64)
    requires { place + 8 ≤ length bytes.old }
    ensures { bytes.new
        ≡ take place bytes.old ++ number_bytes 8 number ++ drop (place + 8) bytes.old }
{
    bytes[place..place + 8].copy_from_slice(&number.to_le_bytes());
}

/// Laws: a number is read back from its bytes, whatever follows. Bytes are those of the number that
/// is read from them.
#[tactic(auto, using(crate::proofs::NumberLemmas::number_laws))]
pub fn numbers_read_back()
    ensures read { (width number : ℕ) (rest : List ℕ) → number < 256 ^ width
        → number_of width (number_bytes width number ++ rest) ≡ number }
    ensures spelled { (width : ℕ) (bytes : List ℕ) → IsBytes bytes → width ≤ length bytes
        → number_bytes width (number_of width bytes) ≡ take width bytes }
    ensures front { (width : ℕ) (bytes rest : List ℕ) → width ≤ length bytes
        → number_of width (bytes ++ rest) ≡ number_of width bytes }
    ensures fits { (width : ℕ) (bytes : List ℕ) → IsBytes bytes
        → number_of width bytes < 256 ^ width }
    ensures length { (width number : ℕ) → length (number_bytes width number) ≡ width }
    ensures bytes { (width number : ℕ) → IsBytes (number_bytes width number) }
{}
