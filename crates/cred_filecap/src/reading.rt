//! An attribute read.
ghost use Rattle.std.specs.Prelude.{◌≡◌, ◌≢◌, ◌+◌, ◌≤◌, Ok, IfOk, IfErr, length};
ghost use Rattle.cred_filecap.specs.Refusals.{attr_refusal_of};
ghost use Rattle.cred_rules.specs.Attribute.{Attribute, Spells, SpellsSet, high_in, word_at, fault};

use crate::caps::FileCaps;
use crate::refusal::AttrRefusal;
use crate::sets::{SetWords, set_of};
use crate::version::{VERSION_1, VERSION_3, length_of};
use crate::words::{INH_HIGH, INH_LOW, MAGIC, PERM_HIGH, PERM_LOW, REVISION, ROOT, word_at};
use cred_caps::CapSet;

/// The set in the words at two places, in version 1 in the word at the first.
fn set_at(bytes: &[u8], version: u8, low: usize, high: usize) -> CapSet
    requires low { low + 4 ≤ length bytes.now }
    requires high { version ≢ 1 → high + 4 ≤ length bytes.now }
    ensures { SpellsSet (word_at bytes.now low) (high_in version (word_at bytes.now high)) result }
{
    let high = if version == VERSION_1 {
        0
    } else {
        word_at(bytes, high)
    };
    set_of(SetWords {
        low: word_at(bytes, low),
        high,
    })
}

/// The attribute that the bytes spell (linux/capability.h, `struct vfs_ns_cap_data`). It takes no
/// memory. Flags other than the effective one, and bits above capability 40, are ignored, as Linux
/// does.
///
/// # Errors
///
/// - `BadLength` has the number of bytes where it is below 4, or where it is another than the
///   version's: 12 for revision 1, 20 for revision 2, and 24 for revision 3.
/// - `BadRevision` has the revision of at least 4 bytes where it is none of 1, 2 and 3.
pub fn decode(bytes: &[u8]) -> Result<FileCaps, AttrRefusal>
    ensures value { IfOk result (λ a. Spells bytes.now a) }

    // No bytes that spell an attribute are refused, or read as another.
    ensures each_value { (a : Attribute) → Spells bytes.now a → result ≡ Ok a }
    ensures refusal { IfErr result (λ e. e ≡ attr_refusal_of (fault bytes.now)) }
{
    if bytes.len() < 4 {
        return Err(AttrRefusal::BadLength(bytes.len()));
    }
    let revision = bytes[REVISION];
    let length = length_of(revision).ok_or(AttrRefusal::BadRevision(revision))?;
    if bytes.len() != length {
        return Err(AttrRefusal::BadLength(bytes.len()));
    }
    let root = if revision == VERSION_3 {
        word_at(bytes, ROOT)
    } else {
        0
    };
    Ok(FileCaps {
        version: revision,
        perm: set_at(bytes, revision, PERM_LOW, PERM_HIGH),
        inh: set_at(bytes, revision, INH_LOW, INH_HIGH),
        effective: word_at(bytes, MAGIC) & 1 == 1,
        root,
    })
}
