// The lists of a section file.
ghost use Rattle.std.specs.Prelude.{◌≡◌};
ghost use Rattle.codes.specs.Lists.{list_number};

// In the header's order, which is their order behind LISTS in the table.
#[derive(Clone, Copy, Debug, PartialEq, Eq)]
pub enum List {
    Spaces = 0,
    Registers = 1,
    BitRanges = 2,
    Tables = 3,
    UserOps = 4,
    Macros = 5,
    Others = 6,
    Fields = 7,
    Subtables = 8,
}

impl From<List> for usize {
    ghost from_gives = { λ list place. place ≡ list_number list };

    fn from(list: List) -> usize {
        list as usize
    }
}
