//! What a check of a file asks for.

/// The permissions that a task asks for on a file (access(2)): to read it, to write it, to execute
/// or search it. It may ask for none.
#[derive(Clone, Copy, PartialEq, Eq, Debug)]
pub struct Want {
    /// To read: a directory's entries, another file's bytes.
    pub r: bool,
    /// To write.
    pub w: bool,
    /// To execute a regular file, or to search a directory.
    pub x: bool,
}
