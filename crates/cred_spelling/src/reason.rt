//! What is wrong with a line.

/// What is wrong with a line.
#[derive(Clone, Copy, PartialEq, Eq, Debug)]
pub enum Reason {
    /// It has a byte outside 0x20 to 0x7E.
    Byte,
    /// A word is none of those that may stand at its place.
    Word,
    /// It has too many words, or too few; or it declares a file after 256 others.
    Count,
    /// It declares something, and stands after a call, an event or a lane line.
    Order,
    /// A name is used before it is declared, or declared a second time.
    Name,
    /// It names a task that acts, or a label, which a line of another lane has named.
    Lane,
}
