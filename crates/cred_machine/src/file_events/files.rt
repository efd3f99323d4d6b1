//! The events on open files.
ghost use Rattle.std.specs.Prelude.{◌≡◌, IfOk, OnErr};
ghost use Rattle.cred_model.specs.Like.{Gives};
ghost use Rattle.cred_model.specs.FileEvents.{by_close, by_open};

use crate::state::State;
use cred_declared::may_open;
use cred_event::{Answer, Counted, Named};
use cred_ids::{NoMemory, limits};
use cred_plain::files::{open_of, open_place};
use cred_plain::{Numbered, OpenFile};
use cred_record::Want;

impl State {
    /// The file is opened under the descriptor as it stands, by the credential that the hold has
    /// (open(2)). The refusals leave the state.
    ///
    /// # Errors
    ///
    /// `NoMemory` if an allocation fails: the state is as it was.
    pub(crate) fn open_file(
        &mut self,
        hold: u32,
        file: u32,
        want: Want,
        fd: u32,
    ) -> Result<Answer, NoMemory>
        ensures ok { IfOk result (λ answer.
            Gives self.old (by_open self.old hold file want fd) answer self.new) }
        ensures err { OnErr result (self.new ≡ self.old) }
    {
        let Some(
            Numbered {
                number: opener,
                cred,
                ..
            },
        ) = self.held(hold)
        else {
            return Ok(Answer::NoHold(hold));
        };
        if open_of(&self.files, fd).is_some() {
            return Ok(Answer::Exists {
                what: Named::File,
                number: fd,
            });
        }
        if !may_open(&self.inodes, cred, file, want) {
            return Ok(Answer::Eacces);
        }
        if self.files.len() >= limits::OPEN_FILES {
            return Ok(Answer::TooMany(Counted::Files));
        }
        self.files.push(OpenFile { fd, opener, file })?;
        Ok(Answer::Done)
    }

    /// The descriptor is closed, and its opener's credential given up (close(2)). `Ebadf` leaves
    /// the state.
    ///
    /// # Errors
    ///
    /// `NoMemory` if an allocation fails: the state is as it was.
    pub(crate) fn close_file(&mut self, fd: u32) -> Result<Answer, NoMemory>
        ensures ok { IfOk result (λ answer.
            Gives self.old (by_close self.old fd) answer self.new) }
        ensures err { OnErr result (self.new ≡ self.old) }
    {
        let Some(place) = open_place(&self.files, fd) else {
            return Ok(Answer::Ebadf);
        };
        let opener = self.files[place].opener;
        self.deferred.push(opener)?;
        self.files.remove(place);
        Ok(Answer::Done)
    }
}
