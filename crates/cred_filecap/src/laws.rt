//! Laws of the attribute, over the definitions that `decode`, `encode` and `counts` are proved to
//! follow. There is nothing to run.
ghost use Rattle.cred_filecap.specs.Laws.{NoBytesSpellTwo, NoIdCountsNowhere, AttributeOfIsSpelled};

/// No bytes spell two attributes.
pub fn no_bytes_spell_two()
    ensures { NoBytesSpellTwo }
{}

/// A version 3 attribute with root id 4294967295, which is no user id, counts for no task.
pub fn no_id_counts_nowhere()
    ensures { NoIdCountsNowhere }
{}

/// The rules that compute with an attribute, as those of execve(2) do, read it by a function. It
/// gives an attribute exactly where the bytes spell it, and so where `decode` does.
pub fn attribute_of_is_spelled()
    ensures { AttributeOfIsSpelled }
{}
