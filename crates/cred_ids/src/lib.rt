//! Ids of users and groups (credentials(7)), the arguments by which calls name them, lists of
//! groups and of bytes, every limit, and `NoMemory`.
#![tactic(auto)]

pub mod arg;
pub mod groups;
pub mod id;
pub mod items;
pub mod limits;
pub mod memory;

pub use arg::Arg;
pub use groups::{Groups, GroupsRefusal};
pub use id::{Id, Ids4, Kind};
pub use items::{Bytes, Items};
pub use memory::NoMemory;
