//! Why bytes are not the text of a file's capabilities.

/// Why bytes are not the text of a file's capabilities.
#[derive(Clone, Copy, PartialEq, Eq, Debug)]
pub enum TextRefusal {
    /// They are outside the grammar, and the longest of their prefixes with which some text begins
    /// has this length.
    Bad(usize),
    /// The effective set is neither empty nor all that is permitted or inheritable, where a file
    /// has one flag for all.
    Mixed,
}
