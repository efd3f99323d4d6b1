//! Laws of the text of an entry, and of several.
ghost use Rattle.cred_reader.specs.Once.{ListsDiffer, TextsDiffer};

/// Two entries that fit one script have different texts if they are different. The event says how
/// the words of the answer are read: `ok` after a question about groups is an empty list.
pub fn texts_differ()
    ensures { TextsDiffer }
{}

/// Two lists of entries that fit one script have different texts if they are different. So a text
/// is that of one list of fitting entries at most: each line feed ends an entry.
pub fn lists_differ()
    ensures { ListsDiffer }
{}
