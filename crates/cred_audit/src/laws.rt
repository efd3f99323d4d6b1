//! A law of the texts of journals.
ghost use Rattle.cred_audit.specs.One.{OneJournal};

/// Two journals so far of one script that have one text are one journal. So where a report is the
/// text of a legal journal, it is that of no other list of entries that the script may make.
///
/// It does not say that a text which one journal's text begins has one journal: a longer journal's
/// begins with it too.
pub fn one_journal()
    ensures { OneJournal }
{}
