// Numbers of four and of eight bytes, read in little-endian order.
ghost use Rattle.std.specs.Prelude.{◌≡◌, ◌+◌, ◌≤◌, drop, length};
ghost use Rattle.byteorder.specs.Endian.{little_number, twos_complement};

use byteorder::{ByteOrder, LittleEndian};

/// The unsigned number in the four bytes from the place `at` on, the lowest byte first.
pub fn u32_at(bytes: &[u8], at: usize) -> u32
    requires { at + 4 ≤ length bytes.now }
    ensures { result ≡ little_number 4 (drop at bytes.now) }
{
    LittleEndian::read_u32(&bytes[at..])
}

/// The signed number in the four bytes from the place `at` on, in two's complement, the lowest byte first.
pub fn i32_at(bytes: &[u8], at: usize) -> i32
    requires { at + 4 ≤ length bytes.now }
    ensures { result ≡ twos_complement 4 (little_number 4 (drop at bytes.now)) }
{
    LittleEndian::read_i32(&bytes[at..])
}

/// The unsigned number in the eight bytes from the place `at` on, the lowest byte first.
pub fn u64_at(bytes: &[u8], at: usize) -> u64
    requires { at + 8 ≤ length bytes.now }
    ensures { result ≡ little_number 8 (drop at bytes.now) }
{
    LittleEndian::read_u64(&bytes[at..])
}
