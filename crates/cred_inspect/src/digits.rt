//! Bytes in hexadecimal digits.
ghost use Rattle.std.specs.Prelude.{◌≡◌, ◌<◌, ◌++◌, OnOk, All};
ghost use Rattle.hex.specs.Hex.{encode_lower};

use cred_ids::NoMemory;
use cred_report::append_word;
use std::alloc::Global;

/// Appends the bytes, two digits each, in lower case. What is read as a byte is below 256, as the
/// definitions of an attribute and of a record ask.
///
/// # Errors
///
/// `NoMemory` if an allocation fails. Nothing is said of what the text holds then.
pub(crate) fn append_hex(alloc: Global, text: &mut Vec<u8>, bytes: &[u8]) -> Result<(), NoMemory>
    ensures text { OnOk result (text.new.items ≡ text.old.items ++ encode_lower bytes.now) }
    ensures bytes { All (λ byte. byte < 256) bytes.now }
{
    let digits = hex::encode(alloc, bytes)?;
    append_word(text, &digits)
}
