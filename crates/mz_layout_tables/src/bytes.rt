// Numbers in the file, lowest byte first.
ghost use Rattle.std.specs.Prelude.{◌≡◌, ◌≤◌, ◌+◌, length};
ghost use Rattle.mz_layout_tables.specs.Numbers.{number_at};

use byteorder::{ByteOrder, LittleEndian};

/// The number in the two bytes from a place on.
#[tactic(auto, unfolding(crate::specs::Numbers::number_at))]
#[inline(always)]
pub fn u16_at(file: &[u8], at: u32) -> u16
    requires { at + 2 ≤ length file.now }
    ensures { result ≡ number_at 2 file.now at }
{
    LittleEndian::read_u16(&file[at as usize..])
}

/// The number in the four bytes from a place on.
#[tactic(auto, unfolding(crate::specs::Numbers::number_at))]
#[inline(always)]
pub fn u32_at(file: &[u8], at: u32) -> u32
    requires { at + 4 ≤ length file.now }
    ensures { result ≡ number_at 4 file.now at }
{
    LittleEndian::read_u32(&file[at as usize..])
}

/// The number in the eight bytes from a place on.
#[tactic(auto, unfolding(crate::specs::Numbers::number_at))]
#[inline(always)]
pub fn u64_at(file: &[u8], at: u32) -> u64
    requires { at + 8 ≤ length file.now }
    ensures { result ≡ number_at 8 file.now at }
{
    LittleEndian::read_u64(&file[at as usize..])
}
