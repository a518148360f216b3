// Little-endian numbers that stand whole inside a slice: read with no test of the bounds, which the caller has made.
ghost use Rattle.std.specs.Prelude.{◌≡◌, ◌+◌, ◌≤◌, ◌<◌, length, take, drop};
ghost use Rattle.access.specs.Le.{le16, le32, le64};

// N bytes from an index on.
#[inline(always)]
fn part<const N: usize>(bytes: &[u8], index: usize) -> [u8; N]
    requires { index + N ≤ length bytes.now }
    ensures { result ≡ take N (drop index bytes.now) }
{
    *bytes[index..].first_chunk::<N>().unwrap()
}

#[tactic(auto, unfolding(crate::specs::Le::le16))]
pub fn two(bytes: &[u8], index: usize) -> u64
    requires { index + 2 ≤ length bytes.now }
    ensures { (result ≡ le16 bytes.now index) × (result < 65536) }
{
    u64::from(u16::from_le_bytes(part(bytes, index)))
}

#[tactic(auto, unfolding(crate::specs::Le::le16, crate::specs::Le::le32))]
pub fn four(bytes: &[u8], index: usize) -> u64
    requires { index + 4 ≤ length bytes.now }
    ensures { (result ≡ le32 bytes.now index) × (result < 4294967296) }
{
    u64::from(u32::from_le_bytes(part(bytes, index)))
}

#[tactic(auto, unfolding(crate::specs::Le::le16, crate::specs::Le::le32, crate::specs::Le::le64))]
pub fn eight(bytes: &[u8], index: usize) -> u64
    requires { index + 8 ≤ length bytes.now }
    ensures { result ≡ le64 bytes.now index }
{
    u64::from_le_bytes(part(bytes, index))
}
