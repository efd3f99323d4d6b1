//! What is true of each entry.
ghost use Rattle.cred_fits.specs.Fitting.{AnswersAreOfTheirRows, EntriesFit, EventsFit};
ghost use Rattle.cred_fits.specs.Fitting.{JournalsAreShort, OneFittingList};

/// Whatever the state is, the answer to an event is one that its row has, for the event's own
/// arguments: setuid(2) of -1 is invalid, and setreuid(2) never is.
pub fn answers_are_of_their_rows()
    ensures { AnswersAreOfTheirRows }
{}

/// Each event of a journal of a script is one that the script's lines make: its numbers are in
/// range, labels that a line takes for itself among them, its words are spelled as the grammar
/// asks, and the files and the namespaces that it names are the script's.
pub fn events_fit()
    ensures { EventsFit }
{}

/// Each entry of a journal of a script fits the script, so that it is what its text is read back
/// as: its event does, its answer is of the event's row, and the answer's numbers are in range.
pub fn entries_fit()
    ensures { EntriesFit }
{}

/// A journal of a script is the one list of fitting entries that has its text: what reads the
/// report back, line by line, reads the journal.
pub fn one_fitting_list()
    ensures { OneFittingList }
{}

/// A journal of a script has no more entries than 150 for each line, however its lanes are mixed:
/// a line has eight tries at most, and each thread that an id call lets wait, or that is created
/// beside such a one, follows once.
pub fn journals_are_short()
    ensures { JournalsAreShort }
{}
