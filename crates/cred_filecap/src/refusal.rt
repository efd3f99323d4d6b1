//! Why bytes are no attribute.

/// Why bytes are no capability attribute. execve(2) answers EINVAL to such a file.
#[derive(Clone, Copy, PartialEq, Eq, Debug)]
pub enum AttrRefusal {
    /// So many bytes are no attribute: they are fewer than 4, or not as many as their version has.
    BadLength(usize),
    /// This revision is no version.
    BadRevision(u8),
}
