//! The events on open files.
ghost use Rattle.std.specs.Prelude.{◌≡◌, ◌<◌, ◌∷◌, ◌++◌, [], ℕ, None, length, IfOk, IfSome};
ghost use Rattle.std.specs.Prelude.{if◌then◌else◌, MatchResult, OnErr, OnOk};
ghost use Rattle.cred_event.specs.declared.answer.Answer.TheVariants.{Done, Eacces};
ghost use Rattle.cred_ids.specs.Limits.{OPEN_FILES};
ghost use Rattle.cred_record.specs.declared.want.Want.{Want as Wanted};
ghost use Rattle.cred_model.specs.Answers.{checked};
ghost use Rattle.cred_model.specs.State.{held_by, info_of, open_of};
ghost use Rattle.cred_model.specs.Like.{Gives};
ghost use Rattle.cred_model.specs.FileEvents.{by_close, by_open};
ghost use Rattle.cred_tables.specs.Kept.{IsInUse};
ghost use Rattle.cred_state.specs.TokensOut.{MayOpen};
ghost use Rattle.cred_sound.specs.Sound.{IsSound};
ghost use Rattle.cred_tables.specs.Out.{AreHome, AreOut};

use crate::state::State;
use cred_event::{Answer, Counted, Event, Named};
use cred_hold::Cells;
use cred_ids::NoMemory;
use cred_record::Want;
use cred_work::{NoPause, may_open};

impl State {
    /// The number of the credential that a label holds, where the file may be opened under the
    /// descriptor: it was decided so of that credential (`may`), and nothing else refuses it.
    /// `Err` with what refuses it.
    pub(crate) fn may_open(&self, label: u32, fd: u32, may: bool) -> Result<u64, Answer>
        ensures { MatchResult result
            (λ opener. MayOpen self.now.state label fd opener may)
            (λ answer. (file : ℕ) (want : Wanted)
            → IfSome (held_by self.now.state label) (λ held.
            checked held.cred (info_of self.now.state.inodes (file ∷ [])) want
            ≡ (if may then Done else Eacces))
            → Gives self.now.state (by_open self.now.state label file want fd) answer
            self.now.state) }
    {
        let Some(found) = self.held(label) else {
            return Err(Answer::NoHold(label));
        };
        if self.files.has(fd) {
            return Err(Answer::Exists {
                what: Named::File,
                number: fd,
            });
        }
        if !may {
            return Err(Answer::Eacces);
        }
        if self.files.full() {
            return Err(Answer::TooMany(Counted::Files));
        }
        Ok(found.number)
    }

    /// The file is opened under the descriptor, which no file has, by the credential of this
    /// number, which is referred to (open(2)).
    ///
    /// # Errors
    ///
    /// `NoMemory` if an allocation of room for the file or for its reference fails: the state is as
    /// it was.
    pub(crate) fn open_by(&mut self, fd: u32, opener: u64, file: u32) -> Result<(), NoMemory>
        requires used { IsInUse self.old.state opener }
        requires new { open_of self.old.state fd ≡ None }
        requires room { length self.old.state.files < OPEN_FILES }
        ensures ok { OnOk result (self.new.state ≡ record self.old.state {
          files = self.old.state.files
              ++ record { fd = fd; opener = opener; file = file } ∷ [];
        }) }
        ensures words { (self.new.words ≡ self.old.words) × (self.new.places ≡ self.old.places) }
        ensures err { OnErr result (self.new ≡ self.old) }
    {
        self.slots.reserve()?;
        self.files.add(fd, opener, file)?;
        self.slots.add(opener);
        Ok(())
    }

    /// The descriptor is closed, and its opener's credential given up (close(2)). `Ebadf` leaves
    /// the state.
    pub fn close_file(&mut self, fd: u32) -> Answer
        ensures made { Gives self.old.state (by_close self.old.state fd) result self.new.state }
        ensures words { self.new.words ≡ self.old.words }
    {
        let Some(opener) = self.files.remove(fd) else {
            return Answer::Ebadf;
        };
        self.slots.drop_later(opener);
        Answer::Done
    }

    /// Opens a file (open(2)). Whether it may be opened so is decided on the hold that is lent for
    /// it in this call.
    ///
    /// # Errors
    ///
    /// `NoMemory` if an allocation of groups, or of room for the file or for its reference, fails:
    /// the state is as it was.
    pub(crate) fn open(
        &mut self,
        cells: &Cells,
        label: u32,
        file: u32,
        want: Want,
        fd: u32,
    ) -> Result<Answer, NoMemory>
        requires own { self.old.words.id ≡ cells.now }
        requires out { AreOut self.old.state self.old.words.out }
        requires home { AreHome (Event.OpenFile label file want fd) self.old.words.out }
        requires sound { IsSound self.old.state }
        ensures ok { IfOk result (λ answer.
            Gives self.old.state (by_open self.old.state label file want fd) answer
            self.new.state) }
        ensures err { OnErr result (self.new ≡ self.old) }
        ensures words { self.new.words ≡ self.old.words }
    {
        let Some(found) = self.held(label) else {
            return Ok(Answer::NoHold(label));
        };
        let mut hold = self.lend_found(cells, label, found);
        let may = may_open(
            self.alloc,
            cells,
            &NoPause,
            &mut hold,
            self.inodes().file(file),
            want,
        );
        self.take_hold_back(cells, hold);
        self.open_as(label, file, fd, may?)
    }
}
