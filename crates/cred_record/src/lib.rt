//! The credential of a task (`struct cred`, credentials(7)), and the plain data of calls, files and
//! gains.
#![tactic(auto)]

pub mod adj_call;
pub mod cred;
pub mod file;
pub mod gains;
pub mod id_call;
pub mod layout;
pub mod mode;
pub mod refusal;
pub mod valid;
pub mod want;
pub mod word_laws;

pub use adj_call::AdjCall;
pub use cred::{Cred, copy, first};
/// The bytes of the extended attribute `security.capability` of a file (capabilities(7), "File
/// capabilities"), as they stand there, whether or not they are well formed.
pub use cred_ids::Bytes as Attr;
pub use file::{FileInfo, FileKind, copy_attr};
pub use gains::Gains;
pub use id_call::{IdCall, IdList};
pub use layout::WORDS;
pub use mode::PtraceMode;
pub use refusal::{Denial, Refusal};
pub use valid::is_credential;
pub use want::Want;
