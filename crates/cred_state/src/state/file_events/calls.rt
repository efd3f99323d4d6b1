//! The calls on a file of the script, as it stands: those that change it, and stat(2).
ghost use Rattle.std.specs.Prelude.{◌≡◌, ◌<◌, ℕ, Result, Some, length, slice_get, IfOk, OnErr};
ghost use Rattle.std.specs.Option.{option_map};
ghost use Rattle.cred_record.specs.Answer.{AnswersBy};
ghost use Rattle.cred_record.specs.Credential.{Credential};
ghost use Rattle.cred_record.specs.File.{File, IsMode};
ghost use Rattle.cred_record.specs.declared.refusal.Denial.{Denial};
ghost use Rattle.cred_rules.specs.Files as rules;
ghost use Rattle.cred_model.specs.Like.{Gives};
ghost use Rattle.cred_model.specs.State.{held_by};
ghost use Rattle.cred_model.specs.FileEvents.{by_file, by_stat};

use crate::state::State;
use cred_attr::{chmod, chown, set_attr};
use cred_decide::refusal_answer;
use cred_event::{Answer, Told};
use cred_hold::Cells;
use cred_ids::{Arg, NoMemory};
use cred_record::{Attr, Cred, FileInfo, Refusal, copy_attr};

impl State {
    /// The file at a place has this owner and this group from now on (chown(2)): the credential
    /// that the label holds decides. `NoHold` and `Eperm` leave the state.
    ///
    /// # Errors
    ///
    /// `NoMemory` if an allocation of the credential's groups or of the file's attribute fails: the
    /// state is as it was.
    #[inline(never)]
    pub(crate) fn chown(
        &mut self,
        cells: &Cells,
        hold: u32,
        place: u32,
        owner: Arg,
        group: Arg,
    ) -> Result<Answer, NoMemory>
        requires own { self.old.words.id ≡ cells.now }
        ensures ok { IfOk result (λ answer.
            Gives self.old.state
            (by_file self.old.state hold place (λ c file. rules.chown c file owner group)) answer
            self.new.state) }
        ensures err { OnErr result (self.new ≡ self.old) }
        ensures words { self.new.words ≡ self.old.words }
    {
        let Some(cred) = self.read_held(cells, hold)? else {
            return Ok(Answer::NoHold(hold));
        };
        let Some(file) = self.inodes().file(place) else {
            return Ok(Answer::NoHold(hold));
        };
        let made = chown(&cred, file, owner, group);
        self.put_file(place, made)
    }

    /// The file at a place has this mode from now on (chmod(2)): the credential that the label
    /// holds decides. `NoHold` and `Eperm` leave the state.
    ///
    /// # Errors
    ///
    /// `NoMemory` as `chown` has it: the state is as it was.
    #[inline(never)]
    pub(crate) fn chmod(
        &mut self,
        cells: &Cells,
        hold: u32,
        place: u32,
        mode: u16,
    ) -> Result<Answer, NoMemory>
        requires own { self.old.words.id ≡ cells.now }
        requires mode { IsMode mode }
        ensures ok { IfOk result (λ answer.
            Gives self.old.state
            (by_file self.old.state hold place (λ c file. rules.chmod c file mode)) answer
            self.new.state) }
        ensures err { OnErr result (self.new ≡ self.old) }
        ensures words { self.new.words ≡ self.old.words }
    {
        let Some(cred) = self.read_held(cells, hold)? else {
            return Ok(Answer::NoHold(hold));
        };
        let Some(file) = self.inodes().file(place) else {
            return Ok(Answer::NoHold(hold));
        };
        let made = chmod(&cred, file, mode);
        self.put_file(place, made)
    }

    /// The file at a place has this capability attribute from now on, or none (setxattr(2),
    /// removexattr(2)): the credential that the label holds decides. `NoHold`, `Eperm`, and
    /// `Einval` of bytes that are no attribute leave the state.
    ///
    /// # Errors
    ///
    /// `NoMemory` if an allocation of the credential's groups or of the attribute fails: the state
    /// is as it was.
    #[inline(never)]
    pub(crate) fn set_attr(
        &mut self,
        cells: &Cells,
        hold: u32,
        place: u32,
        attr: &Option<Attr>,
    ) -> Result<Answer, NoMemory>
        requires own { self.old.words.id ≡ cells.now }
        ensures ok { IfOk result (λ answer.
            Gives self.old.state
            (by_file self.old.state hold place (λ c file. rules.set_attr c file attr.now)) answer
            self.new.state) }
        ensures err { OnErr result (self.new ≡ self.old) }
        ensures words { self.new.words ≡ self.old.words }
    {
        let attr = copy_attr(attr)?;
        let Some(cred) = self.read_held(cells, hold)? else {
            return Ok(Answer::NoHold(hold));
        };
        let Some(file) = self.inodes().file(place) else {
            return Ok(Answer::NoHold(hold));
        };
        let made = set_attr(&cred, file, attr);
        self.put_file(place, made)
    }

    /// How a file stands (stat(2)). A task may ask that by any credential; `NoHold` where the label
    /// holds none.
    #[inline(never)]
    pub(crate) fn stat(&self, hold: u32, place: u32) -> Answer
        ensures { Gives self.now.state (by_stat self.now.state hold place) result self.now.state }
    {
        let Some(_) = self.held(hold) else {
            return Answer::NoHold(hold);
        };
        let Some(file) = self.inodes().file(place) else {
            return Answer::NoHold(hold);
        };
        Answer::Told(Told::File {
            owner: file.owner,
            group: file.group,
            mode: file.mode,
            attr: file.attr.is_some(),
        })
    }

    /// The credential that a label holds, read whole. `None` where it holds none.
    ///
    /// # Errors
    ///
    /// `NoMemory` if the allocation of its groups fails.
    fn read_held(&mut self, cells: &Cells, label: u32) -> Result<Option<Cred>, NoMemory>
        requires own { self.old.words.id ≡ cells.now }
        ensures cred { IfOk result (λ cred.
            cred ≡ option_map (λ held. held.cred) (held_by self.old.state label)) }
        ensures same { self.new ≡ self.old }
    {
        let Some(found) = self.held(label) else {
            return Ok(None);
        };
        Ok(Some(self.read(cells, found)?))
    }

    /// The file at this place, which is there, is from now on what a rule has made of it. Where the
    /// rule refuses it stays as it is.
    ///
    /// # Errors
    ///
    /// `NoMemory` where there was none for what the rule makes: the state is as it was.
    fn put_file(&mut self, place: u32, made: Result<FileInfo, Refusal>) -> Result<Answer, NoMemory>
        requires there { place < length self.old.state.inodes }
        ensures ok { (hold : ℕ) (rule : Credential → File → Result File Denial)
            (c : Credential) (file : File)
            → option_map (λ held. held.cred) (held_by self.old.state hold) ≡ Some c
            → slice_get self.old.state.inodes place ≡ Some file
            → AnswersBy made (rule c file)
            → IfOk result (λ answer.
            Gives self.old.state (by_file self.old.state hold place rule) answer self.new.state) }
        ensures err { OnErr result (self.new ≡ self.old) }
        ensures words { self.new.words ≡ self.old.words }
    {
        match made {
            Ok(file) => {
                self.inodes.replace(place, file);
                Ok(Answer::Done)
            }
            Err(refusal) => refusal_answer(refusal),
        }
    }
}
