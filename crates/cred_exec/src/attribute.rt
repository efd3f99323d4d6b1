//! What of the file has effect: its set-id bits, and its capability attribute.
ghost use Rattle.std.specs.Prelude.{◌≡◌, Ok, Err, IfOk, OnErr};
ghost use Rattle.cred_rules.specs.Attribute.{attribute_of};
ghost use Rattle.cred_rules.specs.Exec.{SpellsNothing, has_effect, sets_user, sets_group};
ghost use Rattle.cred_rules.specs.Exec.{read_by, attribute_for};

use cred_access::{GROUP_EXECUTE, SET_GROUP, SET_USER, has_any};
use cred_filecap::{AttrRefusal, FileCaps, counts, decode};
use cred_ids::Id;
use cred_record::{Cred, FileInfo};

/// Whether the set-id bits and the attribute have effect: not under no_new_privs, and not where the
/// file system is mounted nosuid.
fn has_effect(cred: &Cred, file: &FileInfo) -> bool
    ensures { result ≡ has_effect cred.now file.now }
{
    !cred.nnp && !file.nosuid
}

/// Whether the set-user-ID bit is in force.
pub fn sets_user(cred: &Cred, file: &FileInfo) -> bool
    ensures { result ≡ sets_user cred.now file.now }
{
    has_effect(cred, file) && has_any(file.mode, SET_USER)
}

/// Whether the set-group-ID bit is in force. Without the execute bit of the group it is no
/// set-group-ID bit (inode(7)).
pub fn sets_group(cred: &Cred, file: &FileInfo) -> bool
    ensures { result ≡ sets_group cred.now file.now }
{
    has_effect(cred, file) && has_any(file.mode, SET_GROUP) && has_any(file.mode, GROUP_EXECUTE)
}

/// The attribute that the bytes spell, if it counts under these root ids.
fn read_by(bytes: &[u8], chain: &[Id]) -> Result<Option<FileCaps>, AttrRefusal>
    ensures value { IfOk result (λ a. read_by chain.now (attribute_of bytes.now) ≡ Ok a) }
    ensures refusal { OnErr result
        (read_by chain.now (attribute_of bytes.now) ≡ Err SpellsNothing) }
{
    let caps = decode(bytes)?;
    Ok(if counts(&caps, chain) {
        Some(caps)
    } else {
        None
    })
}

/// The attribute of the file that counts for the task, if it has one. One that has no effect is not
/// read.
///
/// # Errors
///
/// Why the bytes of an attribute that has effect spell none.
#[tactic(auto, unfolding(cred_rules::specs::Exec::attribute_for))]
pub fn attribute_for(
    cred: &Cred,
    file: &FileInfo,
    chain: &[Id],
) -> Result<Option<FileCaps>, AttrRefusal>
    ensures value { IfOk result (λ a. attribute_for cred.now file.now chain.now ≡ Ok a) }
    ensures refusal { OnErr result
        (attribute_for cred.now file.now chain.now ≡ Err SpellsNothing) }
{
    match &file.attr {
        Some(attr) if has_effect(cred, file) => read_by(attr.items(), chain),
        _ => Ok(None),
    }
}
