// Builds small section files from descriptions on standard input and writes the name and the refusal of each, in a line.
// The input: a u16 count of descriptions; each is a length byte and a name, the file's length as a u32, a u16 count of runs,
// the runs, 1 where each block gets its right check, and an amount that is added to the last byte. A run is a place in the
// stream as a u32, a length byte, and bytes.
#![tactic(auto)]

use codes::refusal::Refusal;
use file_blocks::blocks::{BLOCK, LONGEST_FILE, PAYLOAD, TOO_LONG_FILE};
use list_values::section::Section;
use resolve_file::section::with_section;
use std::alloc::{AllocError, Global};
use std::io::{self, BufWriter, Read, Write};

// So much of the input is read; zeros stand behind a shorter one.
const INPUT: usize = 65536;

// Lengths and places are taken modulo this number before anything else is done with them.
const NUMBERS: u32 = 1000000;

// What is left of the input, behind which stand zeros.
#[derive(Clone, Copy)]
struct Input<'a>(&'a [u8]);

impl<'a> Input<'a> {
    fn byte(&mut self) -> u8 {
        let Some((byte, left)) = self.0.split_first() else {
            return 0;
        };
        self.0 = left;
        *byte
    }

    fn u16(&mut self) -> u16 {
        u16::from_le_bytes([self.byte(), self.byte()])
    }

    fn u32(&mut self) -> u32 {
        u32::from_le_bytes([self.byte(), self.byte(), self.byte(), self.byte()])
    }

    // A length or a place.
    fn number(&mut self) -> u32 {
        self.u32() % NUMBERS
    }

    // The bytes behind a length byte; none where they are not all there.
    fn name(&mut self) -> &'a [u8] {
        let length = usize::from(self.byte());
        let (name, left) = self.0.split_at_checked(length).unwrap_or((&[], &[]));
        self.0 = left;
        name
    }

    // A run's bytes, at their places among the payloads of a file's blocks, as far as the file goes.
    fn run(&mut self, file: &mut [u8]) {
        // By `as`: the library has no `From` between a `u32` and a `usize`, and nothing is lost.
        let start = self.number() as usize;
        let end = start + usize::from(self.byte());
        // By the places, since a file's bytes go round at its greatest length, and a payload's are not all its block's.
        for place in start..end {
            let place = place % LONGEST_FILE;
            let byte = self.byte();
            if let Some(old) = file.get_mut(place / PAYLOAD * BLOCK + place % PAYLOAD) {
                *old = byte;
            }
        }
    }

    // The file of a description, at most a byte longer than the longest.
    fn file(&mut self, alloc: Global) -> Result<Vec<u8>, AllocError> {
        let told = self.number() as usize;
        let mut file = vec![in alloc; 0u8; told % (TOO_LONG_FILE + 1)]?;
        for _ in 0..self.u16() {
            self.run(&mut file);
        }
        // The blocks are counted by another rest of the length than the bytes are.
        if self.byte() == 1 {
            seal(&mut file, told % TOO_LONG_FILE / BLOCK);
        }
        let more = self.byte();
        if let Some(last) = file.last_mut() {
            *last = last.wrapping_add(more);
        }
        Ok(file)
    }
}

// The right check, of its payload and its number, of so many blocks, or of all where the file has fewer.
fn seal(file: &mut [u8], count: usize) {
    let (blocks, _) = file.as_chunks_mut::<BLOCK>();
    for (number, block) in (0..u16::MAX).zip(blocks.iter_mut().take(count)) {
        let payload = block[..PAYLOAD].iter();
        let total = payload.fold(number, |total, byte| total.wrapping_add(u16::from(*byte)));
        let [low, high] = total.to_le_bytes();
        block[PAYLOAD] = low;
        block[PAYLOAD + 1] = high;
    }
}

// Why a file is refused when it is read, if it is.
fn refusal_of(file: &[u8]) -> Option<Refusal> {
    with_section(file, &mut |_: Section<'_>| ()).err()
}

fn describe<W: Write>(out: &mut W, alloc: Global, input: &[u8]) -> io::Result<()> {
    let mut input = Input(input);
    for _ in 0..input.u16() {
        out.write_all(input.name())?;
        let file = input.file(alloc)?;
        let refusal = refusal_of(&file);
        writeln!(out, " {}", refusal.map_or(0, u64::from))?;
    }
    Ok(())
}

fn main(rt: HostRuntime) -> io::Result<()> {
    let mut input = Vec::new(rt.alloc());
    rt.reader().take(INPUT as u64).read_to_end(&mut input)?;
    input.resize(INPUT, 0)?;
    let mut out = BufWriter::new(rt.alloc(), io::writer(&rt))?;
    describe(&mut out, rt.alloc(), &input)?;
    out.flush()
}

#[cfg(test)]
mod tests {
    use super::*;
    use std::test::Fail;

    // The first has 65,536 bytes, and none of its blocks gets its check; the second has 512; the third's run is at place 0.
    const LARGE: &[u8] = b"\x03\0\x01a\x02\0\x02\0\0\0\x01\0\x01b\x40\x44\x0f\0\0\0\x01\0\
        \x01c\0\x02\0\0\x01\0\x40\x42\x0f\0\x01\x01\x01\0";

    #[test]
    fn large_lengths_and_places(rt: HostRuntime) -> Result<(), Fail> {
        let mut out = Vec::new(rt.alloc());
        describe(&mut out, rt.alloc(), LARGE)?;
        assert_eq!(rt; out.as_slice(), b"a 2\nb 5\nc 4\n".as_slice());
        Ok(())
    }
}
