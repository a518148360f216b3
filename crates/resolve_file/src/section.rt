// The section of a file, read for a step that works on it. The step is lent, so that its caller knows what it captured after it.
ghost use Rattle.std.specs.Prelude.{◌≡◌, ◌*◌, ◌/◌, ◌≤◌, length, take, IfOk, IfErr};
ghost use Rattle.codes.specs.Refusals.{number};
ghost use Rattle.file_blocks.specs.Blocks.{joined};
ghost use Rattle.file_section.specs.Stream.{answer};
ghost use Rattle.resolve_file.specs.Sections.{read_table, GivenSection, read_file};

use codes::refusal::Refusal;
use codes::table;
use file_blocks::blocks::{BLOCK, LONGEST_STREAM, PAYLOAD, check_blocks, join};
use list_values::section::Section;

#[tactic(auto, unfolding(crate::specs::Sections::read_table))]
fn with_stream<R, F: FnMut(Section<'_>) -> R>(stream: &[u8], step: &mut F) -> Result<R, Refusal>
    requires { F.IsAlwaysCallable step.old }
    ensures given { IfOk result (λ made. (section : _) × (section.stream.now ≡ stream.now) × (answer 0 section.table.now ≡ read_table stream.now) × F.step step.old section made step.new) }
    ensures refused { IfErr result (λ refusal. (number refusal ≡ (read_table stream.now).refusal) × (step.new ≡ step.old)) }
{
    // On the stack, since the library lends no heap.
    let mut table = [0u16; table::LENGTH];
    file_section::read_stream(stream, &mut table)?;
    Ok(step(Section {
        stream,
        table: &table,
    }))
}

// A file of several blocks, whose payloads are joined on the stack, since the library lends no heap. The one block of a small
// file is read where it stands, since to make this room for it would take as long as all the rest.
#[tactic(auto, using(crate::proofs::SectionLaws::blocks_laws))]
fn with_blocks<R, F: FnMut(Section<'_>) -> R>(file: &[u8], step: &mut F) -> Result<R, Refusal>
    requires room { length file.now / 512 * 510 ≤ 65280 }
    requires callable { F.IsAlwaysCallable step.old }
    ensures given { IfOk result (λ made. (section : _) × (section.stream.now ≡ joined (length file.now / 512) file.now) × (answer 0 section.table.now ≡ read_table (joined (length file.now / 512) file.now)) × F.step step.old section made step.new) }
    ensures refused { IfErr result (λ refusal. (number refusal ≡ (read_table (joined (length file.now / 512) file.now)).refusal) × (step.new ≡ step.old)) }
{
    let mut buffer = [0u8; LONGEST_STREAM];
    join(file, &mut buffer);
    let count = file.len() / BLOCK * PAYLOAD;
    with_front(&buffer, count, step)
}

// The stream is so many bytes from the first on. A slice cut by each of the two callers would be no plainer: what the first bytes
// are would be shown twice.
fn with_front<R, F: FnMut(Section<'_>) -> R>(
    bytes: &[u8],
    count: usize,
    step: &mut F,
) -> Result<R, Refusal>
    requires room { count ≤ length bytes.now }
    requires callable { F.IsAlwaysCallable step.old }
    ensures given { IfOk result (λ made. (section : _) × (section.stream.now ≡ take count bytes.now) × (answer 0 section.table.now ≡ read_table (take count bytes.now)) × F.step step.old section made step.new) }
    ensures refused { IfErr result (λ refusal. (number refusal ≡ (read_table (take count bytes.now)).refusal) × (step.new ≡ step.old)) }
{
    with_stream(&bytes[..count], step)
}

// The step is called once, with the section of the file, and what it makes is answered; where the file is refused it is not called.
#[tactic(auto, using(crate::proofs::SectionLaws::section_laws), unfolding(crate::specs::Sections::read_file))]
pub fn with_section<R, F: FnMut(Section<'_>) -> R>(file: &[u8], step: &mut F) -> Result<R, Refusal>
    requires { F.IsAlwaysCallable step.old }
    ensures given { IfOk result (λ made. (section : _) × GivenSection file.now section.stream.now section.table.now × F.step step.old section made step.new) }
    ensures refused { IfErr result (λ refusal. (number refusal ≡ (read_file file.now).refusal) × (step.new ≡ step.old)) }
{
    check_blocks(file)?;
    if file.len() == BLOCK {
        return with_front(file, PAYLOAD, step);
    }
    with_blocks(file, step)
}
