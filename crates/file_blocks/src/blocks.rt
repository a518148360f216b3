// Blocks of 512 bytes: 510 of payload, then a u16 that checks them. The payloads joined are the stream.
ghost use Rattle.std.specs.Prelude.{◌≡◌, ◌++◌, ◌*◌, ◌/◌, ◌≤◌, length, drop};
ghost use Rattle.prelude.specs.Base.{sum};
ghost use Rattle.codes.specs.Refusals.{number_or_zero};
ghost use Rattle.definition.specs.SectionFile.{checks_out, stream_of};
ghost use Rattle.file_blocks.specs.Blocks.{refusal_of, joined};

use codes::refusal::Refusal;

// The bytes of a block, and of its payload.
pub const BLOCK: usize = 512;

pub const PAYLOAD: usize = 510;

// The bytes of the longest file.
pub const LONGEST_FILE: usize = 65536;

// So many bytes of a file are enough to refuse it as too long.
pub const TOO_LONG_FILE: usize = LONGEST_FILE + 1;

// The bytes of the longest stream, which is that of the longest file.
pub const LONGEST_STREAM: usize = 65280;

// The sum of a payload is taken in two parts of which the first has so many bytes.
const FRONT: usize = 256;

// So few bytes that a u16 holds their sum.
fn sum(bytes: &[u8]) -> u16
    requires { length bytes.now ≤ 256 }
    ensures { result ≡ sum bytes.now }
{
    bytes.iter().map(|&byte| u16::from(byte)).sum()
}

// A block's payload and its number, as its last two bytes say. The number becomes a u64 by `as`: both have 64 bits, and the library
// has no `From` between them.
#[tactic(auto, using(crate::proofs::BlockLaws::checks_laws))]
fn checks_out(block: &[u8], number: usize) -> bool
    requires { (length block.now ≡ 512) × (number ≤ 65536) }
    ensures { result ≡ checks_out number block.now }
{
    let front = sum(&block[..FRONT]);
    let back = sum(&block[FRONT..PAYLOAD]);
    let total = u64::from(front) + u64::from(back);
    (total + number as u64) % 65536 == access::u16_at(block, PAYLOAD)
}

#[tactic(auto, using(crate::proofs::BlockLaws::length_laws))]
pub fn check_blocks(file: &[u8]) -> Result<(), Refusal>
    ensures { number_or_zero result ≡ refusal_of (stream_of file.now) }
{
    let len = file.len();
    if len == 0 || len > LONGEST_FILE || len % BLOCK != 0 {
        return Err(Refusal::BadLength);
    }
    for (k, block) in file.chunks_exact(BLOCK).enumerate() {
        if !checks_out(block, k) {
            return Err(Refusal::BlockCheck);
        }
    }
    Ok(())
}

// The payloads of the whole blocks of a file, joined. Tried by pairs of chunks (`chunks_exact_mut` with `zip`), and the proof did
// not close: what stands behind the last payload goes through each chunk's loan. One number places a payload on both sides.
pub fn join(file: &[u8], stream: &mut [u8])
    requires { length file.now / 512 * 510 ≤ length stream.old }
    ensures { stream.new ≡ joined (length file.now / 512) file.now ++ drop (length file.now / 512 * 510) stream.old }
{
    let n = file.len() / BLOCK;
    for k in 0..n {
        let from = BLOCK * k;
        let to = PAYLOAD * k;
        stream[to..to + PAYLOAD].copy_from_slice(&file[from..from + PAYLOAD]);
    }
}
