// What a built-in function is.

// An operation's number, by its count of arguments.
#[derive(Clone, Copy)]
pub enum Inbuilt {
    Unary(u64),
    Binary(u64),
}
