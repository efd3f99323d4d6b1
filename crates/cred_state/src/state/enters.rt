//! Events are entered as they were decided on what was lent for them.
ghost use Rattle.std.specs.Prelude.{◌≡◌, ◌∷◌, [], List, ℕ, Result, Some, None, IfOk, IfErr, IfSome};
ghost use Rattle.std.specs.Prelude.{false, if◌then◌else◌, OnErr, OnOk};
ghost use Rattle.cred_event.specs.declared.answer.Answer.TheVariants.{Done, Eacces};
ghost use Rattle.cred_event.specs.declared.event.Query.{Query as Asked};
ghost use Rattle.cred_model.specs.Answers.{checked, reply};
ghost use Rattle.cred_model.specs.Script.{Script as Declared};
ghost use Rattle.cred_model.specs.Like.{Gives, GivesLike};
ghost use Rattle.cred_model.specs.Slots.{kept};
ghost use Rattle.cred_model.specs.State.{held_by, info_of};
ghost use Rattle.cred_model.specs.Named.{event_files, query_files};
ghost use Rattle.cred_model.specs.TaskEvents.{by_signal};
ghost use Rattle.cred_model.specs.LabelEvents.{by_alter, by_ask};
ghost use Rattle.cred_model.specs.FileEvents.{by_open};
ghost use Rattle.cred_model.specs.Step.{done};
ghost use Rattle.cred_record.specs.Credential.{Credential};
ghost use Rattle.cred_record.specs.declared.want.Want.{Want as Wanted};
ghost use Rattle.cred_rules.specs.Access.{may_signal};
ghost use Rattle.cred_sound.specs.Sound.{IsSound};
ghost use Rattle.cred_words.specs.Lists.{IsTaken};
ghost use Rattle.cred_hold.specs.Tokens.{loan};
ghost use Rattle.cred_work.specs.Decisions.{work_event, AreOf, IsPut, IsRight};
ghost use Rattle.cred_tables.specs.Out.{AreBack, AreOut};
ghost use Rattle.cred_state.specs.TokensOut.{loans_of, hold_loan, HoldsApart, AreTaken, IsChain};
ghost use Rattle.cred_state.specs.TokensOut.{IsBase, IsMadeOf, IsMadePut, CanOpen, StaysLent};

use crate::state::State;
use cred_decide::Made;
use cred_event::{Answer, Change};
use cred_hold::{Cells, HoldToken, Writer};
use cred_ids::NoMemory;
use cred_tables::Changed;
use cred_work::{Pending, unbox};

impl State {
    /// Enters an event as it was decided, and takes back what was lent for it. A change that is
    /// refused leaves in the words what an earlier one has made.
    ///
    /// # Errors
    ///
    /// What was lent, which still is, where nothing was decided, or where there is no memory for a
    /// file that is opened, which nothing refuses. The state is as it was.
    // Inlined: a call would move what it takes or gives, which is large.
    #[inline(always)]
    pub fn enter(&mut self, cells: &Cells, lent: Pending) -> Result<Answer, Pending>
        requires own { (self.old.words.id ≡ cells.now) × AreOf cells.now lent }
        requires put { IsPut lent }
        requires sound { IsSound self.old.state }
        requires out { AreOut self.old.state self.old.words.out }
        ensures ok { (script : Declared) (line : ℕ) (chain : List ℕ)
            → IsChain script lent chain
            → IsRight (info_of self.old.state.inodes (event_files (work_event lent))) chain lent
            → IfOk result (λ answer.
            GivesLike self.old.state (done script self.old.state line (work_event lent)) answer
            self.new.state) }
        ensures back { OnOk result (AreBack (loans_of lent) self.old.words self.new.words) }
        ensures taken { OnOk result
            (AreTaken (loans_of lent) self.old.words.out self.new.words.out) }
        ensures err { IfErr result (λ left. (self.new ≡ self.old) × (left ≡ lent)) }
        ensures stays { OnErr result (StaysLent self.old.state lent) }
    {
        match lent {
            Pending::Asking { hold, query, told } => match told {
                Some(told) => {
                    let label = hold.label();
                    self.take_hold_back(cells, hold);
                    Ok(self.enter_ask(label, told))
                }
                None => Err(Pending::Asking {
                    hold,
                    query,
                    told: None,
                }),
            },
            Pending::Opening {
                hold,
                file,
                want,
                fd,
                may,
            } => match self.enter_open(cells, hold, file, fd, may) {
                Ok(answer) => Ok(answer),
                Err(hold) => Err(Pending::Opening {
                    hold,
                    file,
                    want,
                    fd,
                    may,
                }),
            },
            Pending::Signalling {
                from,
                hold,
                to,
                target,
                may,
            } => match may {
                Some(may) => {
                    let own = hold.label();
                    let other = target.label();
                    self.take_hold_back(cells, target);
                    self.take_hold_back(cells, hold);
                    Ok(self.enter_signal(from, own, to, other, may))
                }
                None => Err(Pending::Signalling {
                    from,
                    hold,
                    to,
                    target,
                    may: None,
                }),
            },
            Pending::Altering {
                base,
                writer,
                change,
                made,
            } => match made {
                Some(made) => {
                    let made = unbox(made);
                    Ok(self.enter_alter(cells, base, writer, change, made))
                }
                None => Err(Pending::Altering {
                    base,
                    writer,
                    change,
                    made: None,
                }),
            },
        }
    }

    /// What a label prepares is changed as it was decided, or stays as it was where the change is
    /// refused. Both tokens come back.
    // Inlined: a call would move what it takes or gives, which is large.
    #[inline(always)]
    pub(super) fn enter_alter(
        &mut self,
        cells: &Cells,
        base: HoldToken,
        writer: Writer,
        change: Change,
        made: Result<Made, Answer>,
    ) -> Answer
        requires own { (self.old.words.id ≡ cells.now) × (base.id ≡ cells.now)
            × (writer.id ≡ cells.now) }
        requires label { writer.label ≡ base.label }
        requires put { IsMadePut writer made }
        requires sound { IsSound self.old.state }
        requires out { AreOut self.old.state self.old.words.out }
        ensures made { (script : Declared) (chain : List ℕ)
            → IsMadeOf script self.old.state.inodes chain base.cred change made
            → GivesLike self.old.state (by_alter script self.old.state base.label change) result
            self.new.state }
        ensures taken { AreTaken (loan writer.label writer.slot None ∷ hold_loan base ∷ [])
            self.old.words.out self.new.words.out }
        ensures id { self.new.words.id ≡ self.old.words.id }
    {
        let answer = self.enter_change(cells, base.label(), change, writer, made);
        self.take_hold_back(cells, base);
        answer
    }

    /// The same, while the base is still lent.
    // Inlined: a call would move what it takes or gives, which is large.
    #[inline(always)]
    fn enter_change(
        &mut self,
        cells: &Cells,
        label: u32,
        change: Change,
        writer: Writer,
        made: Result<Made, Answer>,
    ) -> Answer
        requires own { (self.old.words.id ≡ cells.now) × (writer.id ≡ cells.now) }
        requires label { writer.label ≡ label }
        requires put { IsMadePut writer made }
        requires sound { IsSound self.old.state }
        requires out { AreOut self.old.state self.old.words.out }
        ensures made { (script : Declared) (chain : List ℕ) (base : Credential)
            → IsMadeOf script self.old.state.inodes chain base change made
            → IsBase self.old.state label base
            → GivesLike self.old.state (by_alter script self.old.state label change) result
            self.new.state }
        ensures taken { IsTaken self.old.words.out (loan writer.label writer.slot None)
            self.new.words.out }
        ensures id { self.new.words.id ≡ self.old.words.id }
        ensures kept { kept self.new.state ≡ kept self.old.state }
    {
        match made {
            Ok(made) => {
                let Made {
                    answer,
                    cred,
                    gains,
                } = made;
                let to = Changed {
                    change,
                    cred,
                    gains,
                };
                self.change_to(cells, label, to, writer);
                answer
            }
            Err(answer) => {
                self.put_earlier(cells, label, writer);
                answer
            }
        }
    }

    /// The file is opened, if it was decided so. Its hold comes back.
    ///
    /// # Errors
    ///
    /// The hold, which is still lent, where nothing was decided, or where there is no memory for
    /// the file, which nothing refuses. The state is as it was.
    fn enter_open(
        &mut self,
        cells: &Cells,
        hold: HoldToken,
        file: u32,
        fd: u32,
        may: Option<bool>,
    ) -> Result<Answer, HoldToken>
        requires own { (self.old.words.id ≡ cells.now) × (hold.id ≡ cells.now) }
        requires apart { HoldsApart (kept self.old.state) self.old.words.out }
        ensures ok { IfOk result (λ answer. (want : Wanted)
            → IfSome may (λ may. IfSome (held_by self.old.state hold.label) (λ held.
            checked held.cred (info_of self.old.state.inodes (file ∷ [])) want
            ≡ (if may then Done else Eacces)))
            → Gives self.old.state (by_open self.old.state hold.label file want fd) answer
            self.new.state) }
        ensures taken { OnOk result (IsTaken self.old.words.out (hold_loan hold)
            self.new.words.out) }
        ensures id { self.new.words.id ≡ self.old.words.id }
        ensures err { IfErr result (λ left. (self.new ≡ self.old) × (left ≡ hold)) }
        ensures stays { OnErr result (IfSome may (CanOpen self.old.state hold.label fd)) }
    {
        let Some(may) = may else {
            return Err(hold);
        };
        match self.open_as(hold.label(), file, fd, may) {
            Ok(answer) => {
                self.take_hold_back(cells, hold);
                Ok(answer)
            }
            Err(NoMemory) => Err(hold),
        }
    }

    /// The answer to a question: `told`, which was decided on the credential that its label holds.
    pub(crate) fn enter_ask(&self, label: u32, told: Answer) -> Answer
        ensures { (query : Asked)
            → IfSome (held_by self.now.state label) (λ held.
            told ≡ reply (info_of self.now.state.inodes (query_files query)) held.cred query)
            → Gives self.now.state (by_ask self.now.state label query) result self.now.state }
    {
        let Some(_) = self.held(label) else {
            return Answer::NoHold(label);
        };
        told
    }

    /// May a task signal another (kill(2)), where one label holds the sender's credential and
    /// another the target's? `may` says whether it may where they are of two processes.
    pub(crate) fn enter_signal(
        &self,
        from: u32,
        hold: u32,
        to: u32,
        target: u32,
        may: bool,
    ) -> Answer
        ensures { IfSome (held_by self.now.state hold) (λ own.
            IfSome (held_by self.now.state target) (λ other.
            may ≡ may_signal own.cred other.cred false))
            → Gives self.now.state (by_signal self.now.state from hold to target) result
            self.now.state }
    {
        let Some(sender) = self.tasks.process_of(from) else {
            return Answer::NoTask(from);
        };
        let Some(receiver) = self.tasks.process_of(to) else {
            return Answer::NoTask(to);
        };
        let Some(_) = self.held(hold) else {
            return Answer::NoHold(hold);
        };
        let Some(_) = self.held(target) else {
            return Answer::NoHold(target);
        };
        if may || sender == receiver {
            Answer::Done
        } else {
            Answer::Eperm
        }
    }

    /// The file is opened under the descriptor, where that may be and nothing else refuses it
    /// (open(2)).
    ///
    /// # Errors
    ///
    /// `NoMemory` if an allocation of room for the file or for its reference fails, where nothing
    /// refuses to open it: the state is as it was.
    pub(crate) fn open_as(
        &mut self,
        label: u32,
        file: u32,
        fd: u32,
        may: bool,
    ) -> Result<Answer, NoMemory>
        ensures ok { IfOk result (λ answer. (want : Wanted)
            → IfSome (held_by self.old.state label) (λ held.
            checked held.cred (info_of self.old.state.inodes (file ∷ [])) want
            ≡ (if may then Done else Eacces))
            → Gives self.old.state (by_open self.old.state label file want fd) answer
            self.new.state) }
        ensures kept { kept self.new.state ≡ kept self.old.state }
        ensures words { (self.new.words ≡ self.old.words) × (self.new.places ≡ self.old.places) }
        ensures err { OnErr result (self.new ≡ self.old) }
        ensures memory { OnErr result (CanOpen self.old.state label fd may) }
    {
        let opener = match self.may_open(label, fd, may) {
            Ok(opener) => opener,
            Err(answer) => return Ok(answer),
        };
        self.open_by(fd, opener, file)?;
        Ok(Answer::Done)
    }
}
