//! A record read.
ghost use Rattle.std.specs.Prelude.{◌≡◌, ◌≢◌, ◌+◌, ◌≤◌, Ok, IfOk, IfErr, length};
ghost use Rattle.cred_rules.specs.Attribute.{SpellsSet, high_in, word_at};
ghost use Rattle.cred_capdata.specs.declared.data.CapData.{CapData as Data};
ghost use Rattle.std.specs.Result.{result_ok};
ghost use Rattle.cred_capdata.specs.Record.{SpellsData, data_of, data_refusal_of};

use crate::data::CapData;
use crate::refusal::DataRefusal;
use crate::version::{VERSION_1, length_of, version_of};
use crate::words::{EFF, HIGH, INH, PERM, TARGET, VERSION};
use cred_caps::CapSet;
use cred_filecap::{SetWords, set_of, word_at};

/// The set whose low word stands at a place, and its high word in the second group of words.
/// Version 1 has no second group.
fn set_at(bytes: &[u8], version: u8, place: usize) -> CapSet
    requires low { place + 4 ≤ length bytes.now }
    requires high { version ≢ 1 → place + 16 ≤ length bytes.now }
    ensures { SpellsSet (word_at bytes.now place)
        (high_in version (word_at bytes.now (place + 12))) result }
{
    let high = if version == VERSION_1 {
        0
    } else {
        word_at(bytes, place + HIGH)
    };
    set_of(SetWords {
        low: word_at(bytes, place),
        high,
    })
}

/// The record that the bytes spell (capset(2), "Current details"): a header of two little-endian
/// words, the version and the target, and three words in version 1, six in the others. It takes no
/// memory. Bits above capability 40 are ignored, as Linux does.
///
/// # Errors
///
/// - `BadLength` has the number of bytes where it is below 8, or where it is another than the
///   version's: 20 for version 1, and 32 for the others.
/// - `BadVersion` has the first word of at least 8 bytes where it is no version.
pub fn read_data(bytes: &[u8]) -> Result<CapData, DataRefusal>
    ensures value { IfOk result (λ d. SpellsData bytes.now d) }

    // No bytes that spell a record are refused, or read as another.
    ensures each_value { (d : Data) → SpellsData bytes.now d → result ≡ Ok d }
    ensures refusal { IfErr result (λ e. e ≡ data_refusal_of bytes.now) }
    ensures function { result_ok result ≡ data_of bytes.now }
{
    record_of(bytes)
}

/// The same, by the relation alone.
fn record_of(bytes: &[u8]) -> Result<CapData, DataRefusal>
    ensures value { IfOk result (λ d. SpellsData bytes.now d) }
    ensures each_value { (d : Data) → SpellsData bytes.now d → result ≡ Ok d }
    ensures refusal { IfErr result (λ e. e ≡ data_refusal_of bytes.now) }
{
    if bytes.len() < 8 {
        return Err(DataRefusal::BadLength(bytes.len()));
    }
    let word = word_at(bytes, VERSION);
    let version = version_of(word).ok_or(DataRefusal::BadVersion(word))?;
    if bytes.len() != length_of(version) {
        return Err(DataRefusal::BadLength(bytes.len()));
    }
    Ok(CapData {
        version,
        target: word_at(bytes, TARGET),
        perm: set_at(bytes, version, PERM),
        inh: set_at(bytes, version, INH),
        eff: set_at(bytes, version, EFF),
    })
}
