//! Laws of what `encode` and `capdata` write, over the definitions that they are proved to follow.
//! There is nothing to run.
ghost use Rattle.cred_inspect.specs.Laws.{NoTextGetsTwoLines, NoRecordGetsTwoLines};

/// What `encode` writes for a text is one line: bytes that spell an attribute, with no other bit
/// and each below 256, are the only such bytes.
pub fn no_text_gets_two_lines()
    ensures { NoTextGetsTwoLines }
{}

/// What `capdata` writes for a record is one line.
pub fn no_record_gets_two_lines()
    ensures { NoRecordGetsTwoLines }
{}
