//! What is lent for an event, and what was decided on it.
ghost use Rattle.std.specs.Prelude.{◌≡◌, true, OnOk, OnErr};
ghost use Rattle.std.specs.Option.{option_map};
ghost use Rattle.cred_work.specs.Decisions.{undecided, work_event, is_decided, AreOf, IsPut};
ghost use Rattle.cred_work.specs.Decisions.{IsRight};
ghost use Rattle.cred_work.specs.Decisions.{PutStays};

use crate::changes::alter_boxed;
use crate::made::BoxedMade;
use crate::pause::Pause;
use crate::questions::{decide, may_open};
use crate::signals::decide_signal;
use cred_event::{Answer, Change, Event, Query};
use cred_hold::{Cells, HoldToken, Writer};
use cred_ids::{Id, NoMemory};
use cred_record::{FileInfo, Want};
use std::alloc::Global;

/// The tokens that an event is decided on, each under the label that the event names, with the rest
/// of the event, and once it is made, the decision.
#[derive(Drop)]
pub enum Pending {
    /// A question.
    Asking {
        hold: HoldToken,
        query: Query,
        told: Option<Answer>,
    },
    /// The opening of a file: whether it may be opened so.
    Opening {
        hold: HoldToken,
        file: u32,
        want: Want,
        fd: u32,
        may: Option<bool>,
    },
    /// A signal: whether it may be sent to a task of another process.
    Signalling {
        from: u32,
        hold: HoldToken,
        to: u32,
        target: HoldToken,
        may: Option<bool>,
    },
    /// A change of what is prepared, whose base is held. The writer is of the slot that is kept for
    /// the new credential, and has put it where the change isn't refused.
    Altering {
        base: HoldToken,
        writer: Writer,
        change: Change,
        made: Option<Result<BoxedMade, Answer>>,
    },
}

impl Pending {
    /// The event for which it is lent.
    pub fn event(&self) -> Event
        ensures { result ≡ work_event self.now }
    {
        match self {
            Pending::Asking { hold, query, .. } => Event::Ask {
                label: hold.label(),
                query: *query,
            },
            Pending::Opening {
                hold,
                file,
                want,
                fd,
                ..
            } => Event::OpenFile {
                hold: hold.label(),
                file: *file,
                want: *want,
                fd: *fd,
            },
            Pending::Signalling {
                from,
                hold,
                to,
                target,
                ..
            } => Event::Signal {
                from: *from,
                hold: hold.label(),
                to: *to,
                target: target.label(),
            },
            Pending::Altering { base, change, .. } => Event::Alter {
                label: base.label(),
                change: *change,
            },
        }
    }

    /// Decides the event, as the rules have it. The tokens stay, but for the new credential, which
    /// the writer has put where the change isn't refused. It waits for nobody but `pause`, which it
    /// calls once the words have been read, before anything is decided by them.
    ///
    /// `file` is the file that the event names, if it names one, and `chain` has the root ids of
    /// the base's user namespace and of that one's ancestors, the nearest first.
    ///
    /// # Errors
    ///
    /// `NoMemory` if an allocation fails. All stays as it was.
    // Inlined: a call would move what it takes or gives, which is large.
    #[inline(always)]
    pub fn decide<P: Pause>(
        &mut self,
        alloc: Global,
        cells: &Cells,
        pause: &P,
        file: Option<&FileInfo>,
        chain: &[Id],
    ) -> Result<(), NoMemory>
        requires own { AreOf cells.now self.old }
        ensures decided { OnOk result (is_decided self.new ≡ true) }
        ensures right { OnOk result (IsRight (option_map (λ file. file.now) file.entry) chain.now
            self.new) }
        ensures put { OnOk result (IsPut self.new) }
        ensures refused { OnOk result (PutStays self.old self.new) }
        ensures stays { undecided self.new ≡ undecided self.old }
        ensures same { OnErr result (self.new ≡ self.old) }
    {
        match self {
            Pending::Asking { hold, query, told } => {
                *told = Some(decide(alloc, cells, pause, hold, *query, file)?);
            }
            Pending::Opening {
                hold,
                want,
                may,
                ..
            } => {
                *may = Some(may_open(alloc, cells, pause, hold, file, *want)?);
            }
            Pending::Signalling {
                hold,
                target,
                may,
                ..
            } => {
                *may = Some(decide_signal(cells, pause, hold, target));
            }
            Pending::Altering {
                base,
                writer,
                change,
                made,
            } => {
                *made = Some(alter_boxed(alloc, cells, pause, base, change, file, chain, writer)?);
            }
        }
        Ok(())
    }
}
