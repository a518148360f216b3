// A section file as a walk reads it.
use codes::table;

// The stream, and the table of what stands where in it, which the file's reader filled.
#[derive(Clone, Copy)]
pub struct Section<'a> {
    pub stream: &'a [u8],
    pub table: &'a [u16; table::LENGTH],
}
