// The spellings of a section file's names, in its stream, by the table that `file_section::read_stream` fills.
ghost use Rattle.std.specs.Prelude.{◌≡◌};
ghost use Rattle.codes.specs.Lists.{list_number};
ghost use Rattle.file_refinement.specs.Holds.{spelled_at};
ghost use Rattle.listing_names.specs.Names.{name_of, name_in, symbol_name};

use codes::list::List;
use list_values::section::Section;
use list_values::sizes::entry;

// What has a name of its own and stands in a list of the section.
#[derive(Clone, Copy, Debug, PartialEq, Eq)]
pub enum Symbol {
    Register,
    UserOp,
    Field,
    Subtable,
}

// The name whose length byte stands at a place, as far as the stream goes.
// Not one function with that of `expr_inbuilts`, which is private there: its promise is in words of its own, since `spelled_at`
// stands above it.
fn spelled<'a>(stream: &'a [u8], at: usize) -> &'a [u8]
    ensures { result.now ≡ spelled_at stream.now at }
{
    let Some(rest) = stream.get(at..) else {
        return &[];
    };
    let Some((length, name)) = rest.split_first() else {
        return &[];
    };
    name.get(..usize::from(*length)).unwrap_or(name)
}

// The name of a number.
pub fn name_of<'a>(section: Section<'a>, number: u64) -> &'a [u8]
    ensures { result.now ≡ name_of section.entry.stream.now section.entry.table.now number }
{
    let Section { stream, table } = section;
    spelled(stream, usize::from(access::get(table, number as usize)))
}

// The name of the entry that begins so many bytes into a list.
fn name_in<'a>(section: Section<'a>, list: List, bytes: u64) -> &'a [u8]
    ensures { result.now ≡ name_in section.entry.stream.now section.entry.table.now (list_number list) bytes }
{
    name_of(
        section,
        access::u16_at(
            section.stream,
            entry(section.table, usize::from(list), bytes),
        ),
    )
}

// The name of a symbol, by its place among those of its kind.
pub fn symbol_name<'a>(section: Section<'a>, symbol: Symbol, index: u64) -> &'a [u8]
    ensures { result.now ≡ symbol_name section.entry.stream.now section.entry.table.now symbol index }
{
    let index = index % 65536;
    match symbol {
        Symbol::Register => name_in(section, List::Registers, index * 4),
        Symbol::UserOp => name_in(section, List::UserOps, index * 2),
        Symbol::Field => name_in(section, List::Fields, index * 4),
        Symbol::Subtable => name_in(section, List::Subtables, index * 4),
    }
}
