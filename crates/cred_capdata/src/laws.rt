//! A law of the record, over the definition that `read_data` and `write_data` are proved to follow.
//! There is nothing to run.
ghost use Rattle.cred_capdata.specs.Laws.{NoBytesSpellTwoRecords};

/// No bytes spell two records.
pub fn no_bytes_spell_two()
    ensures { NoBytesSpellTwoRecords }
{}
