//! The journal of a run.
ghost use Rattle.std.specs.Prelude.{◌≡◌, ◌≢◌, ◌<◌, [], length, true, is_some, None, IfOk, IfSome};
ghost use Rattle.std.specs.Prelude.{ℕ, MatchOption, OnOk, OnErr, slice_index_or};
ghost use Rattle.cred_ids.specs.Limits.{LINE_LIMIT};
ghost use Rattle.cred_model.specs.Course as course_model;
ghost use Rattle.cred_model.specs.Journal as model;
ghost use Rattle.cred_model.specs.Journal.{replay};
ghost use Rattle.cred_model.specs.Named.{IsEventOf};
ghost use Rattle.cred_model.specs.Slots.{uses};
ghost use Rattle.cred_script.specs.Lines.{line_at};
ghost use Rattle.cred_course.specs.Cursor.{IsOfLine, MovesOnTo};
ghost use Rattle.cred_tables.specs.Kept.{AreInPlace};
ghost use Rattle.cred_tables.specs.Out.{AreHome};
ghost use Rattle.cred_book.specs.Book.{with_event, answer_of, inodes_in, out_of};
ghost use Rattle.cred_book.specs.Counts.{Counts, ended_of};
ghost use Rattle.cred_book.specs.Cursor.{NoLineIsLeft, IsLeastLane, Makes, BookStands, has_left};
ghost use Rattle.cred_book.specs.Cursor.{steps_left, moved_on};
ghost use Rattle.cred_book.specs.declared.step.Step.TheVariants.{More};

mod parts;
mod works;

use crate::beginning::{Beginning, begin};
use crate::earlier::Earlier;
use crate::step::Step;
use cred_copies::copy_answer;
use cred_course::{Course, Cursors, cursor_after, next_event};
use cred_event::{Answer, Entry, Event};
use cred_hold::Cells;
use cred_ids::NoMemory;
use cred_script::Script;
use cred_state::State;
use cred_work::Request;
use std::alloc::Global;
use std::marker::Model;

/// A script, the journal of its run so far, and a state like the one that the journal leads to: no
/// event can tell the two apart. And for each lane a cursor, the course of a line or none, how many
/// of its lines have ended, and the line whose work is out, or none.
///
/// Every entry has the answer that its event gets in the state after the entries before it. The
/// credentials stand in the shared words alone. Each token of them that is out is that of its label
/// in this state.
///
/// The journal comes in parts: the entries of the parts before this one are not kept, and contracts
/// alone see them.
///
/// The memory of the work that came back last is kept for the next one that goes out.
pub struct Book {
    script: Script,
    state: State,
    earlier: Earlier,
    kept: Vec<Entry>,
    cursors: Cursors,
    ended: Vec<u32>,
    outs: Vec<Option<u32>>,
    spare: Option<Request>,
    alloc: Global,
}

impl Model for Book {
    ghost use Rattle.std.specs.Prelude.{◌++◌};
    ghost use Rattle.cred_model.specs.Journal.{replay, IsAnswered};
    ghost use Rattle.cred_model.specs.Like.{IsLike};
    ghost use Rattle.cred_tables.specs.Out.{AreOut};
    ghost use Rattle.cred_book.specs.Book.{Recorded};

    ghost Value = { Recorded };

    ghost view = { λ b. record {
      script = b.script;
      journal = b.earlier ++ b.kept.items;
      earlier = b.earlier;
      cursors = b.cursors;
      ended = b.ended.items;
      outs = b.outs.items;
      words = b.state.words;
      places = b.state.places;
    } };

    ghost invariant = { λ b.
        (IsLike b.state.state (replay b.script (b.earlier ++ b.kept.items))
        × IsAnswered b.script (b.earlier ++ b.kept.items))
        × AreOut (replay b.script (b.earlier ++ b.kept.items)) b.state.words.out };
}

/// Written out, so that it is proved here alone: with a derived one, each crate above that drops a
/// book would prove all parts again.
impl Drop for Book {
    fn drop(self) {
        let Book {
            script,
            state,
            earlier,
            kept,
            cursors,
            ended,
            outs,
            spare,
            alloc: _,
        } = self;
        drop(script);
        drop(state);
        drop(earlier);
        drop(kept);
        drop(cursors);
        drop(ended);
        drop(outs);
        drop(spare);
    }
}

impl Book {
    /// The book of a script before its first event, and the cells that its credentials stand in.
    /// Its cursors and its counts of ended lines are the journal's. No work is out.
    ///
    /// # Errors
    ///
    /// `NoMemory` if an allocation of the state, of the journal, of the cursors or of the counts
    /// fails.
    pub fn new(alloc: Global, script: Script) -> Result<(Book, Cells), NoMemory>
        ensures script { IfOk result (λ made. made.0.script ≡ script) }
        ensures journal { IfOk result (λ made. made.0.journal ≡ []) }
        ensures earlier { IfOk result (λ made. made.0.earlier ≡ []) }
        ensures stands { IfOk result (λ made. BookStands made.0) }
        ensures own { IfOk result (λ made. made.0.words.id ≡ made.1) }
        ensures home { IfOk result (λ made. (made.0.words.out ≡ [])
            × ((lane : ℕ) → out_of made.0 lane ≡ None)) }
        ensures in_place { IfOk result (λ made.
            AreInPlace (replay made.0.script made.0.journal) made.0.places) }
    {
        let Ok(begun) = begin(alloc, &script) else {
            drop(script);
            return Err(NoMemory);
        };
        let Beginning {
            state,
            cells,
            earlier,
            kept,
            cursors,
            ended,
            outs,
        } = begun;
        let book = Book {
            script,
            state,
            earlier,
            kept,
            cursors,
            ended,
            outs,
            spare: None,
            alloc,
        };
        book.check_in_place();
        Ok((book, cells))
    }

    /// The script that it is the book of.
    pub fn script(&self) -> &Script
        ensures { result.now ≡ self.now.script }
    {
        &self.script
    }

    /// How many lines of the lane have ended. No memory is taken.
    pub fn ended(&self, lane: u32) -> u32
        requires { BookStands self.now }
        ensures { result ≡ ended_of self.now.script self.now.journal lane }
    {
        self.ended.get(lane as usize).copied().unwrap_or(0)
    }

    /// How many references there are to credentials in the slot, those that were given up since the
    /// last sweep among them.
    pub fn uses(&self, slot: u32) -> u64
        ensures { result ≡ uses (replay self.now.script self.now.journal) slot }
    {
        self.state.uses(slot)
    }

    /// Enters one event of a line, and returns a copy of the entry's answer. The cursors stay, and
    /// so does what is lent. The event names only declared files and namespaces, and no label under
    /// which something is lent.
    ///
    /// # Errors
    ///
    /// `NoMemory` if an allocation of the state, the entry or the copy fails: the book is as it
    /// was, whatever stands in slots to which nothing refers.
    pub fn event(&mut self, cells: &Cells, line: u32, event: Event) -> Result<Answer, NoMemory>
        requires own { self.old.words.id ≡ cells.now }
        requires kind { IsEventOf (length self.old.script.files) self.old.script.namespaces event }
        requires home { AreHome event self.old.words.out }
        ensures words { self.new.words ≡ self.old.words }
        ensures entered { OnOk result (self.new
            ≡ record (with_event self.old line event) { places = self.new.places }) }
        ensures answer { IfOk result (λ answer. answer ≡ answer_of self.old line event) }
        ensures in_place { AreInPlace (replay self.new.script self.new.journal) self.new.places }
        ensures err { OnErr result (self.new ≡ record self.old { places = self.new.places }) }
    {
        self.check_in_place();
        let Ok(()) = self.kept.reserve(1) else {
            drop(event);
            return Err(NoMemory);
        };
        let Ok(answer) = self.state.step(cells, &self.script, line, &event) else {
            drop(event);
            return Err(NoMemory);
        };
        let Ok(copied) = copy_answer(&answer) else {
            drop(event);
            drop(answer);
            self.check_in_place();
            return Err(NoMemory);
        };
        self.kept.push_reserved(Entry {
            line,
            event,
            answer,
        });
        self.check_in_place();
        Ok(copied)
    }

    /// Makes the next event of a lane, whose lines run in order, each to its end. All other lanes
    /// wait for the setup, lane 0. An event that waits for a decision on credentials isn't entered:
    /// its work goes out, and the lane's next step is the one that finishes it.
    ///
    /// The cursors and the counts of ended lines are those of the journal, before the call and
    /// after it.
    ///
    /// # Errors
    ///
    /// `NoMemory` if an allocation of the event, of what its work has, of the state or of the entry
    /// fails: the book is as it was.
    pub fn next(&mut self, cells: &Cells, lane: u32) -> Result<Step, NoMemory>
        requires own { self.old.words.id ≡ cells.now }
        requires stands { BookStands self.old }
        requires home { out_of self.old lane ≡ None }
        ensures script { self.new.script ≡ self.old.script }
        ensures earlier { self.new.earlier ≡ self.old.earlier }
        ensures cells { self.new.words.id ≡ self.old.words.id }
        ensures stands { BookStands self.new }
        ensures made { IfOk result (λ step. Makes self.old self.new lane
            (model.next self.old.script self.old.journal lane) step) }
        ensures falls { IfOk result (λ step. step ≡ More
            → steps_left self.new < steps_left self.old) }
        ensures counts { IfOk result (Counts self.old self.new lane) }
        ensures in_place { AreInPlace (replay self.new.script self.new.journal) self.new.places }
        ensures home { NoLineIsLeft self.new → self.new.words.out ≡ [] }
        // Only the setup changes files.
        ensures files { lane ≢ 0 → inodes_in self.new ≡ inodes_in self.old }
        ensures err { OnErr result (self.new ≡ self.old) }
    {
        self.check_in_place();
        let Some(course) = self.cursors.due(lane) else {
            return Ok(Step::Ended);
        };
        let Some(event) = next_event(&self.script, course)? else {
            return Ok(Step::Ended);
        };
        let line = course.line();
        if let Some(work) = self.hand_out(cells, lane, line, &event)? {
            self.check_in_place();
            return Ok(Step::Work(work));
        }
        let cursor = self.enter(cells, lane, course, event)?;
        self.move_on(lane, line, cursor);
        self.check_in_place();
        Ok(Step::More)
    }

    /// The lane of the least line that has not ended; none where every line has. Then nothing is
    /// lent. No memory is taken.
    pub fn least(&self) -> Option<u32>
        requires { BookStands self.now }
        ensures least { MatchOption result (NoLineIsLeft self.now) (IsLeastLane self.now) }
        ensures home { result ≡ None → self.now.words.out ≡ [] }
    {
        self.cursors.least()
    }

    /// Whether no lane has a line left: then the journal is a legal one. No memory is taken.
    pub fn has_ended(&self) -> bool
        requires { BookStands self.now }
        ensures { result ≡ true → model.IsLegal self.now.script self.now.journal }
    {
        self.cursors.has_ended()
    }

    /// Each credential that something refers to, after the journal, stands in the words of its
    /// slot. Nothing runs: it is called for its clause alone.
    #[inline(always)]
    fn check_in_place(&self)
        ensures { AreInPlace (replay self.now.script self.now.journal) self.now.places }
    {
        self.state.check_in_place();
    }

    /// Enters the next event of a lane's course, and returns the lane's cursor after it; the book's
    /// own stay. The answer moves into the entry, where `event` makes a copy of it.
    // Called for each event of a lane, from one place of it.
    #[inline(always)]
    fn enter(
        &mut self,
        cells: &Cells,
        lane: u32,
        course: Course,
        event: Event,
    ) -> Result<Option<Course>, NoMemory>
        requires own { self.old.words.id ≡ cells.now }
        requires kind { IsEventOf (length self.old.script.files) self.old.script.namespaces event }
        requires home { AreHome event self.old.words.out }
        requires line { IsOfLine self.old.script course }
        requires going { is_some course.stage ≡ true }
        ensures entered { OnOk result (self.new
            ≡ record (with_event self.old course.line event) { places = self.new.places }) }
        ensures passes { IfOk result (λ cursor. IfSome (line_at self.old.script course.line)
            (λ line. MovesOnTo self.old.script lane
            (course_model.after line.content course (answer_of self.old course.line event))
            cursor)) }
        ensures err { OnErr result (self.new ≡ self.old) }
    {
        let Ok(()) = self.kept.reserve(1) else {
            drop(event);
            return Err(NoMemory);
        };
        let line = course.line();
        let Ok(answer) = self.state.step(cells, &self.script, line, &event) else {
            drop(event);
            return Err(NoMemory);
        };
        let cursor = cursor_after(&self.script, lane, course, &answer);
        self.kept.push_reserved(Entry {
            line,
            event,
            answer,
        });
        Ok(cursor)
    }

    /// Moves the lane on from this line to its next cursor, and counts the line where that has
    /// ended.
    fn move_on(&mut self, lane: u32, line: u32, cursor: Option<Course>)
        requires cursors { lane < length self.old.cursors }
        requires counts { lane < length self.old.ended }
        requires few { slice_index_or self.old.ended lane 0 < LINE_LIMIT }
        ensures { self.new ≡ moved_on self.old lane line cursor }
    {
        let has_ended = has_left(&cursor, line);
        self.cursors.move_on(lane, cursor);
        if has_ended {
            self.ended[lane as usize] += 1;
        }
    }
}

/// Whether the cursor stands on no line of this number.
fn has_left(cursor: &Option<Course>, line: u32) -> bool
    ensures { result ≡ has_left cursor.now line }
{
    match cursor {
        Some(course) => course.line() != line,
        None => true,
    }
}
