//! What changes a file: chown(2), chmod(2), and setxattr(2) of its capability attribute.
#![tactic(auto)]

mod attribute;
mod mode;
mod owner;
mod rights;

pub use attribute::{is_attr, set_attr};
pub use mode::chmod;
pub use owner::chown;
