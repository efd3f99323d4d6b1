//! setxattr(2) and removexattr(2) of a file's capability attribute.
ghost use Rattle.std.specs.Prelude.{◌≡◌};
ghost use Rattle.cred_rules.specs.Files.{is_attr, set_attr};
ghost use Rattle.cred_attr.specs.Exactly.{AnswersExactly};

use cred_access::capable;
use cred_caps::Cap;
use cred_filecap::decode;
use cred_record::{Attr, Cred, FileInfo, Refusal};

/// Whether the bytes are an attribute, or there are none: then a file may have it.
pub fn is_attr(attr: &Option<Attr>) -> bool
    ensures { result ≡ is_attr attr.now }
{
    match attr {
        Some(bytes) => decode(bytes.items()).is_ok(),
        None => true,
    }
}

/// The file with another capability attribute, or without one (capabilities(7), "File
/// capabilities"). It takes no memory.
///
/// # Errors
///
/// `Perm` without CAP_SETFCAP, also for the file's owner; then `Invalid` for bytes that are no
/// attribute.
#[tactic(auto, unfolding(cred_rules::specs::Files::set_attr))]
pub fn set_attr(cred: &Cred, file: &FileInfo, attr: Option<Attr>) -> Result<FileInfo, Refusal>
    ensures { AnswersExactly result (set_attr cred.now file.now attr) }
{
    if !capable(cred, Cap::SETFCAP) {
        return Err(Refusal::Perm);
    }
    if !is_attr(&attr) {
        return Err(Refusal::Invalid);
    }
    Ok(FileInfo {
        kind: file.kind,
        owner: file.owner,
        group: file.group,
        mode: file.mode,
        nosuid: file.nosuid,
        attr,
    })
}
