// Numbers of two and four bytes, high byte first, read and written in lent bytes; and clearing lent bytes.
#![tactic(auto)]

ghost use Rattle.std.specs.Prelude.{◌≡◌, ◌+◌, ◌≤◌, length};
ghost use Rattle.meaning.specs.Bytes.{u16_at, u32_at};
ghost use Rattle.numbers.specs.Writing.{put_u16, put_u32};
ghost use Rattle.numbers.specs.Zeros.{zeros};

// The two bytes at i.
#[tactic(auto, unfolding(meaning::specs::Bytes::u16_at))]
pub fn get16(bytes: &[u8], i: usize) -> u16
    requires { i + 2 ≤ length bytes.now }
    ensures { result ≡ u16_at bytes.now i }
{
    u16::from_be_bytes([bytes[i], bytes[i + 1]])
}

// The four bytes at i.
#[tactic(auto, unfolding(meaning::specs::Bytes::u16_at, meaning::specs::Bytes::u32_at))]
pub fn get32(bytes: &[u8], i: usize) -> u32
    requires { i + 4 ≤ length bytes.now }
    ensures { result ≡ u32_at bytes.now i }
{
    u32::from_be_bytes([bytes[i], bytes[i + 1], bytes[i + 2], bytes[i + 3]])
}

// Writes the two bytes at i, and no other.
#[tactic(auto, using(crate::proofs::Parts::part_u16))]
pub fn put16(bytes: &mut [u8], i: usize, v: u16)
    requires { i + 2 ≤ length bytes.old }
    ensures { bytes.new ≡ put_u16 bytes.old i v }
{
    bytes[i..i + 2].copy_from_slice(&v.to_be_bytes());
}

// Writes the four bytes at i, and no other.
#[tactic(auto, using(crate::proofs::Parts::part_u32))]
pub fn put32(bytes: &mut [u8], i: usize, v: u32)
    requires { i + 4 ≤ length bytes.old }
    ensures { bytes.new ≡ put_u32 bytes.old i v }
{
    bytes[i..i + 4].copy_from_slice(&v.to_be_bytes());
}

// Makes every byte zero.
pub fn clear(bytes: &mut [u8])
    ensures { bytes.new ≡ zeros (length bytes.old) }
{
    bytes.fill(0);
}
