//! The summary of a journal.
ghost use Rattle.std.specs.Prelude.{◌≡◌, count_by, length};
ghost use Rattle.cred_generate.specs.Summary.{HasRoom, is_refused, nothing_told, told_on};

use crate::sealing::sealed_after;
use cred_event::Entry;
use cred_script::Script;

/// The summary of a journal, which is one line of text.
#[derive(Clone, Copy, PartialEq, Eq, Debug)]
pub struct Summary {
    /// How many lines its script has.
    pub lines: u32,
    /// How many entries it has.
    pub entries: u64,
    /// How many credentials are sealed at its end.
    pub credentials: u64,
    /// How many entries were refused.
    pub refusals: u64,
}

impl Summary {
    /// The summary of a script before it has run.
    pub fn new(script: &Script) -> Summary
        ensures { result ≡ nothing_told script.now }
    {
        Summary {
            lines: script.lines(),
            entries: 0,
            credentials: 0,
            refusals: 0,
        }
    }

    /// Counts more entries, which come after those that were counted.
    pub fn add(&mut self, entries: &[Entry])
        requires { HasRoom self.old (length entries.now) }
        ensures { self.new ≡ told_on self.old entries.now }
    {
        self.entries += entries.len() as u64;
        self.credentials = sealed_after(self.credentials, entries);
        self.refusals += count_refused(entries);
    }
}

/// How many entries were refused.
fn count_refused(entries: &[Entry]) -> u64
    ensures { result ≡ count_by is_refused entries.now }
{
    let mut count = 0;
    for entry in entries {
        if !entry.answer.is_ok() {
            count += 1;
        }
    }
    count
}
