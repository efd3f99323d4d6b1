//! How a run of the program ended.
ghost use Rattle.std.specs.Prelude.{◌≡◌};
ghost use Rattle.cred_output.specs.Ends.{status_after};

use cred_io::{ReadRefusal, SinkRefusal};

/// How a run of the program ended.
#[derive(Clone, Copy, PartialEq, Eq, Debug)]
pub enum Status {
    /// The whole text of the command was written.
    Done,
    /// The words are no command, and the usage line was written.
    Usage,
    /// The input is no script, and its first bad line was written; or an input of `audit` has no
    /// line `report`, the word of `decode` spells no attribute, that of `encode` is no text of a
    /// file's capabilities, or that of `capdata` spells no record, and the reason was written.
    Bad,
    /// The input could not be read.
    ReadFault,
    /// The text could not be written.
    WriteFault,
    /// Memory ran out.
    Memory,
    /// The input, or the script part of an input of `audit`, has more bytes or more lines than it
    /// may have.
    TooLarge,
    /// The report is not the script's, and the entry at which it goes wrong was written.
    NotLegal,
}

impl Status {
    ghost use Rattle.cred_output.specs.Statuses.{code_of};

    /// The exit status of the process, from 0 to 7 in the order of the variants.
    pub fn code(self) -> u8
        ensures { result ≡ code_of self }
    {
        self as u8
    }
}

/// How a command ends that could not read its input.
impl From<ReadRefusal> for Status {
    ghost use Rattle.cred_output.specs.Ends.{status_unread};

    ghost from_gives = { λ refusal status. status ≡ status_unread refusal };

    fn from(refusal: ReadRefusal) -> Self {
        match refusal {
            ReadRefusal::Fault => Status::ReadFault,
            ReadRefusal::TooLarge => Status::TooLarge,
            ReadRefusal::Memory => Status::Memory,
        }
    }
}

/// The status, if its text was written.
pub fn finish(written: Result<(), SinkRefusal>, status: Status) -> Status
    ensures { result ≡ status_after written status }
{
    match written {
        Ok(()) => status,
        Err(SinkRefusal::Failed) => Status::WriteFault,
        Err(SinkRefusal::Memory) => Status::Memory,
    }
}
