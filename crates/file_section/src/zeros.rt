// The stream after its statements is zero, which is tested by eight bytes at a time.
ghost use Rattle.std.specs.Prelude.{◌≡◌, ◌-◌, length};
ghost use Rattle.file_section.specs.Stream.{zeros, tail};
ghost use Rattle.file_syntax.specs.Reads.{to_cursor};

use file_syntax::cursor::{Cursor, MALFORMED, Refused, refuse};

// Whether all bytes are zero.
fn all_zeros(bytes: &[u8]) -> bool
    ensures { result ≡ zeros (length bytes.now) 0 bytes.now }
{
    let (words, last) = bytes.as_chunks::<8>();
    words.iter().all(|&word| u64::from_le_bytes(word) == 0) && last.iter().all(|&byte| byte == 0)
}

// Whether the stream is zero from a place on.
#[tactic(auto, using(crate::proofs::ZeroLaws::zero_laws))]
fn only_zeros(stream: &[u8], from: usize) -> bool
    ensures { result ≡ zeros (length stream.now - from) from stream.now }
{
    if stream.len() < from {
        return true;
    }
    all_zeros(&stream[from..])
}

// The stream after the cursor is zero.
#[tactic(auto, using(crate::proofs::RefusedLaws::passing), unfolding(crate::specs::Stream::tail))]
pub fn tail(stream: &[u8], so_far: Result<Cursor, Refused>) -> Result<Cursor, Refused>
    ensures { to_cursor result ≡ tail stream.now (to_cursor so_far) }
{
    let at = so_far?.at;
    if !only_zeros(stream, at) {
        return refuse(MALFORMED, so_far);
    }
    so_far
}
