// What the checker is told of a section file beside its list: how many subtables the section has, and the size of its
// pointers. Both are 0 where the file is refused.
#![tactic(auto)]

ghost use Rattle.std.specs.Prelude.{◌≡◌};
ghost use Rattle.definition.specs.SectionFile.{read};
ghost use Rattle.definition.specs.Passing.{subtable_count, pointer_size_in};
ghost use Rattle.resolve_counts.specs.Counts.{counts, table_counts};

use codes::header;
use list_values::section::Section;
use resolve_file::pointer_size;
use resolve_file::section::with_section;

#[derive(Clone, Copy, Default)]
pub struct Counts {
    pub subtables: u64,
    pub pointer: u64,
}

#[tactic(auto, unfolding(crate::specs::Counts::table_counts))]
fn table_counts(section: Section<'_>) -> Counts
    ensures { result ≡ table_counts section.entry.stream.now section.entry.table.now }
{
    Counts {
        subtables: access::u16_at(section.stream, header::SUBTABLES),
        pointer: pointer_size(section),
    }
}

#[tactic(auto, using(crate::proofs::Laws::section_laws))]
pub fn section_counts(file: &[u8]) -> Counts
    ensures { result ≡ counts (subtable_count (read file.now)) (pointer_size_in (read file.now)) }
{
    match with_section(file, &mut |section: Section<'_>| table_counts(section)) {
        Ok(counts) => counts,
        Err(_) => Counts::default(),
    }
}
