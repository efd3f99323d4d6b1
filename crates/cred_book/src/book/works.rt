//! Works that go out, and that come back decided.
ghost use Rattle.std.specs.Prelude.{◌≡◌, ◌≢◌, ◌<◌, [], length, set, true, is_some, None, IfOk};
ghost use Rattle.std.specs.Prelude.{IfErr, IfNone, IfSome, OnOk, OnErr};
ghost use Rattle.std.specs.Option.{option_map};
ghost use Rattle.cred_model.specs.Course as course_model;
ghost use Rattle.cred_model.specs.Journal as model;
ghost use Rattle.cred_model.specs.Journal.{replay};
ghost use Rattle.cred_model.specs.Named.{event_files};
ghost use Rattle.cred_model.specs.Script.{chain_of};
ghost use Rattle.cred_model.specs.State.{info_of};
ghost use Rattle.cred_script.specs.Lines.{line_at};
ghost use Rattle.cred_course.specs.Cursor.{IsOfLine, MovesOnTo};
ghost use Rattle.cred_work.specs.Decisions.{undecided, work_event, AreOf};
ghost use Rattle.cred_work.specs.DecidedWorks.{IsDecided};
ghost use Rattle.cred_tables.specs.Kept.{AreInPlace};
ghost use Rattle.cred_tables.specs.Out.{AreHome, tokens_in, needs_tokens};
ghost use Rattle.cred_state.specs.TokensOut.{loans_of, needs_decision};
ghost use Rattle.cred_book.specs.Book.{answer_of, inodes_in};
ghost use Rattle.cred_book.specs.Counts.{HasEntered};
ghost use Rattle.cred_book.specs.Cursor.{Finishes, BookStands, NoLineIsLeft, steps_left};
ghost use Rattle.cred_book.specs.Works.{IsChainFor, IsEntered, IsHanded, IsOfLane, IsWorkOf};
ghost use Rattle.cred_book.specs.Works.{with_out};
ghost use Rattle.cred_book.specs.declared.step.Step.TheVariants.{More};

use crate::book::Book;
use crate::outs::copy_file;
use crate::step::{Step, Unfinished};
use cred_course::{Course, cursor_after};
use cred_declared::{chain_of as declared_chain, event_file};
use cred_event::{Entry, Event};
use cred_hold::Cells;
use cred_ids::NoMemory;
use cred_record::{FileInfo, IdList};
use cred_work::{Pending, Request, Work};

impl Book {
    /// Takes a decided work of the lane back, and enters its event, the lane's next one.
    ///
    /// # Errors
    ///
    /// `Unfinished` if an allocation of the state or of the entry fails: it has the work, which is
    /// still out. The book is as it was.
    pub fn finish(&mut self, cells: &Cells, lane: u32, work: Work) -> Result<Step, Unfinished>
        requires own { self.old.words.id ≡ cells.now }
        requires stands { BookStands self.old }
        requires lanes { IsOfLane self.old lane work }
        requires decided { IsDecided work }
        ensures script { self.new.script ≡ self.old.script }
        ensures earlier { self.new.earlier ≡ self.old.earlier }
        ensures cells { self.new.words.id ≡ self.old.words.id }
        ensures stands { BookStands self.new }
        ensures more { IfOk result (λ step. step ≡ More) }
        ensures made { OnOk result (Finishes self.old self.new lane work
            (model.next self.old.script self.old.journal lane)) }
        ensures falls { OnOk result (steps_left self.new < steps_left self.old) }
        ensures counts { OnOk result (HasEntered self.old self.new lane 1) }
        ensures in_place { AreInPlace (replay self.new.script self.new.journal) self.new.places }
        ensures home { NoLineIsLeft self.new → self.new.words.out ≡ [] }
        // Only the setup changes files.
        ensures files { lane ≢ 0 → inodes_in self.new ≡ inodes_in self.old }
        ensures err { IfErr result (λ unfinished. (unfinished.work ≡ work)
            × (self.new ≡ self.old)) }
    {
        self.check_in_place();
        let Some(course) = self.cursors.due(lane) else {
            unreachable!()
        };
        let cursor = self.enter_decided(cells, lane, course, work)?;
        self.take_home(lane);
        self.move_on(lane, course.line(), cursor);
        self.check_in_place();
        Ok(Step::More)
    }

    /// Hands the event of the lane's line out as a work, with its tokens, where it waits for a
    /// decision. `None` where it doesn't: the book is as it was.
    ///
    /// # Errors
    ///
    /// `NoMemory` if an allocation of what the work has fails: nothing was lent, and the book is as
    /// it was.
    pub(super) fn hand_out(
        &mut self,
        cells: &Cells,
        lane: u32,
        line: u32,
        event: &Event,
    ) -> Result<Option<Work>, NoMemory>
        requires own { self.old.words.id ≡ cells.now }
        requires home { AreHome event.now self.old.words.out }
        requires place { lane < length self.old.outs }
        ensures handed { IfOk result (IsHanded self.old self.new lane line event.now) }
        ensures err { OnErr result (self.new ≡ self.old) }
    {
        let Some(ns) = self.deciding_ns(cells, event) else {
            return Ok(None);
        };
        let (file, chain) = self.copies(event, ns)?;
        let asked = self.ask(line, file, chain)?;
        let Some(lent) = self.lend(cells, lane, line, event) else {
            return Ok(None);
        };
        Ok(Some(Work::of(asked, lent)))
    }

    /// What is asked for this line, with this file and these root ids: in the memory of the work
    /// that came back last, where one did. A work goes out at every other line, and comes back
    /// before the next one of its lane goes out.
    ///
    /// # Errors
    ///
    /// `NoMemory` if an allocation of new memory fails.
    fn ask(&mut self, line: u32, file: Option<FileInfo>, chain: IdList) -> Result<Request, NoMemory>
        ensures asked { IfOk result (λ asked. asked ≡ record {
          line = line;
          file = file;
          chain = chain;
        }) }
        ensures same { self.new ≡ self.old }
    {
        match self.spare.take() {
            Some(spare) => Ok(spare.reuse(line, file, chain)),
            None => Request::new(self.alloc, line, file, chain),
        }
    }

    /// The user namespace whose root ids the event is decided by: that of its label's base. Only an
    /// execve is decided by any. `None` where the event waits for no decision.
    fn deciding_ns(&mut self, cells: &Cells, event: &Event) -> Option<u32>
        requires own { self.old.words.id ≡ cells.now }
        ensures decided { is_some result ≡ needs_decision event.now }
        ensures chain { IfSome result (λ ns.
            IsChainFor self.old event.now (chain_of self.old.script ns)) }
        ensures same { self.new ≡ self.old }
    {
        self.state.deciding_ns(cells, event)
    }

    /// Copies of the file that the event names, if it names one, as it stands, and of the root ids
    /// of the namespace and of its ancestors.
    ///
    /// # Errors
    ///
    /// `NoMemory` if an allocation of one of them fails.
    fn copies(&self, event: &Event, ns: u32) -> Result<(Option<FileInfo>, IdList), NoMemory>
        ensures file { IfOk result (λ made.
            made.0 ≡ info_of (inodes_in self.now) (event_files event.now)) }
        ensures chain { IfOk result (λ made. made.1 ≡ chain_of self.now.script ns) }
    {
        let chain = IdList::of(self.alloc, declared_chain(&self.script, ns))?;
        let file = match self.named_file(event) {
            Some(file) => Some(copy_file(file)?),
            None => None,
        };
        Ok((file, chain))
    }

    /// The file that the event names, as it stands. `None` where it names none.
    #[inline(always)]
    fn named_file(&self, event: &Event) -> Option<&FileInfo>
        ensures { option_map (λ file. file.now) result
            ≡ info_of (inodes_in self.now) (event_files event.now) }
    {
        event_file(self.state.inodes(), event)
    }

    /// Lends what the event of the lane's line is decided on, which is then out. `None` where it
    /// doesn't wait for a decision: the book is as it was. No memory is taken.
    fn lend(&mut self, cells: &Cells, lane: u32, line: u32, event: &Event) -> Option<Pending>
        requires own { self.old.words.id ≡ cells.now }
        requires home { AreHome event.now self.old.words.out }
        requires place { lane < length self.old.outs }
        ensures waits { is_some result
            ≡ needs_tokens (replay self.old.script self.old.journal) event.now }
        ensures of { IfSome result (λ lent. AreOf cells.now lent × (work_event lent ≡ event.now)) }
        ensures bare { IfSome result (λ lent. undecided lent ≡ lent) }
        ensures tokens { IfSome result (λ lent. loans_of lent
            ≡ tokens_in (replay self.old.script self.old.journal) event.now) }
        ensures lent { IfSome result (λ lent. self.new ≡ with_out self.old lane line lent) }
        ensures none { IfNone result (self.new ≡ self.old) }
    {
        let lent = self.state.lend(cells, event)?;
        self.outs[lane as usize] = Some(line);
        Some(lent)
    }

    /// Enters the event of a work that is decided and takes back what was lent for it, and returns
    /// the lane's cursor after it; the book's own stay, and so do the lines whose works are out.
    ///
    /// # Errors
    ///
    /// `Unfinished` if an allocation of the state or of the entry fails: it has the work. The book
    /// is as it was.
    fn enter_decided(
        &mut self,
        cells: &Cells,
        lane: u32,
        course: Course,
        work: Work,
    ) -> Result<Option<Course>, Unfinished>
        requires own { self.old.words.id ≡ cells.now }
        requires of { IsWorkOf self.old.script (inodes_in self.old) cells.now work }
        requires decided { IsDecided work }
        requires line { IsOfLine self.old.script course }
        requires number { course.line ≡ work.line }
        requires going { is_some course.stage ≡ true }
        ensures entered { OnOk result (IsEntered self.old self.new work) }
        ensures passes { IfOk result (λ cursor. IfSome (line_at self.old.script course.line)
            (λ line. MovesOnTo self.old.script lane
            (course_model.after line.content course
            (answer_of self.old course.line (work_event work.lent))) cursor)) }
        ensures err { IfErr result (λ unfinished. (unfinished.work ≡ work)
            × (self.new ≡ self.old)) }
    {
        let Ok(()) = self.kept.reserve(1) else {
            return Err(Unfinished { work });
        };
        let (asked, lent) = work.into_parts();
        let event = lent.event();
        match self.state.enter(cells, lent) {
            Ok(answer) => {
                let line = asked.line();
                let cursor = cursor_after(&self.script, lane, course, &answer);
                self.kept.push_reserved(Entry {
                    line,
                    event,
                    answer,
                });
                self.spare = Some(asked);
                Ok(cursor)
            }
            Err(lent) => Err(Unfinished {
                work: Work::of(asked, lent),
            }),
        }
    }

    /// Notes that no work of the lane is out any more.
    fn take_home(&mut self, lane: u32)
        requires place { lane < length self.old.outs }
        ensures { self.new ≡ record self.old { outs = set self.old.outs lane None } }
    {
        self.outs[lane as usize] = None;
    }
}
