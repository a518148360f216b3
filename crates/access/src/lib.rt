// Total access to lent slices: a read past the end is 0 and a write past the end changes nothing, so that callers have no
// bounds to show. Numbers are little-endian, and `mask` has the low bits set. What is read from bytes is a u64, as the numbers
// are that callers test and store: a u16 or a u8 would have to be widened at nearly every call.
#![tactic(auto)]

ghost use Rattle.std.specs.Prelude.{◌≡◌, ◌++◌, ◌+◌, ◌-◌, ◌<◌, length, get_or, set, take, replicate};
ghost use Rattle.access.specs.Le.{le16, le32, le64};
ghost use Rattle.access.specs.Mask.{mask_of};

use inside::{eight, two};

pub mod inside;

// The numbers that a list may hold, each with its 0.
pub trait Number: Copy {
    ghost zero: { Self };

    fn zero() -> Self
        ensures { result ≡ zero };
}

impl Number for u64 {
    ghost zero = { 0 };

    fn zero() -> u64 {
        0
    }
}

impl Number for u16 {
    ghost zero = { 0 };

    fn zero() -> u16 {
        0
    }
}

impl Number for u8 {
    ghost zero = { 0 };

    fn zero() -> u8 {
        0
    }
}

#[tactic(auto, using(crate::proofs::Laws::past_end))]
pub fn get<T: Number>(list: &[T], index: usize) -> T
    ensures { result ≡ get_or list.now index T.zero }
{
    if index < list.len() {
        list[index]
    } else {
        T::zero()
    }
}

#[tactic(auto, using(crate::proofs::Laws::past_end))]
pub fn put<T: Number>(list: &mut [T], index: usize, value: T)
    ensures { list.new ≡ set list.old index value }
{
    if index < list.len() {
        list[index] = value;
    }
}

// The element of an index after a position, where the sum of both need not be a number that the machine has.
#[tactic(auto, using(crate::proofs::Laws::past_end))]
pub fn get_in<T: Number>(list: &[T], at: usize, index: usize) -> T
    ensures { result ≡ get_or list.now (at + index) T.zero }
{
    if at < list.len() && index < list.len() - at {
        return list[at + index];
    }
    T::zero()
}

#[tactic(auto, using(crate::proofs::Laws::past_end))]
pub fn put_in<T: Number>(list: &mut [T], at: usize, index: usize, value: T)
    ensures { list.new ≡ set list.old (at + index) value }
{
    if at < list.len() && index < list.len() - at {
        list[at + index] = value;
    }
}

pub fn byte(bytes: &[u8], at: usize, index: usize) -> u64
    ensures { (result ≡ get_or bytes.now (at + index) 0) × (result < 256) }
{
    u64::from(get_in(bytes, at, index))
}

// The number of two bytes at an index after a position. Where the second is past the end, it is the first alone.
#[tactic(auto, using(crate::proofs::Laws::last_law))]
pub fn u16_in(bytes: &[u8], at: usize, index: usize) -> u64
    requires { index < 16 }
    ensures { (result ≡ le16 bytes.now (at + index)) × (result < 65536) }
{
    if at < bytes.len() && index + 1 < bytes.len() - at {
        return two(bytes, at + index);
    }
    byte(bytes, at, index)
}

// The number of four bytes at an index after a position.
#[tactic(auto, using(crate::proofs::Laws::quad_law))]
fn quad(bytes: &[u8], at: usize, index: usize) -> u64
    requires { index < 8 }
    ensures { (result ≡ le32 bytes.now (at + index)) × (result < 4294967296) }
{
    u16_in(bytes, at, index) + 65536 * u16_in(bytes, at, index + 2)
}

#[tactic(auto, using(crate::proofs::Laws::at_start))]
pub fn u16_at(bytes: &[u8], at: usize) -> u64
    ensures { (result ≡ le16 bytes.now at) × (result < 65536) }
{
    u16_in(bytes, at, 0)
}

#[tactic(auto, using(crate::proofs::Laws::at_start))]
pub fn u32_at(bytes: &[u8], at: usize) -> u64
    ensures { (result ≡ le32 bytes.now at) × (result < 4294967296) }
{
    quad(bytes, at, 0)
}

#[tactic(auto, using(crate::proofs::Laws::whole_law))]
pub fn u64_at(bytes: &[u8], at: usize) -> u64
    ensures { result ≡ le64 bytes.now at }
{
    if at < bytes.len() && 8 <= bytes.len() - at {
        return eight(bytes, at);
    }
    quad(bytes, at, 0) + 4294967296 * quad(bytes, at, 4)
}

// Every word from an index on is made 0.
pub fn zero_from(list: &mut [u64], from: usize)
    ensures { list.new ≡ take from list.old ++ replicate (length list.old - from) 0 }
{
    if from < list.len() {
        list[from..].fill(0);
    }
}

// So many low bits set, all 64 from 64 on.
#[tactic(auto, using(crate::proofs::Laws::mask_laws))]
pub fn mask(bits: u64) -> u64
    ensures { result ≡ mask_of bits }
{
    if bits < 64 {
        (1u64 << bits) - 1
    } else {
        u64::MAX
    }
}
