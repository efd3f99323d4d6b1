//! The one owner of the books that the tests walk in. Making a book and dropping it is expensive
//! to prove, so a test lends its walk to the owner, which lends the book to the walk.
ghost use Rattle.std.specs.Prelude.{◌≡◌, ◌<◌, ℕ, [], None, OnOk};
ghost use Rattle.cred_book.specs.Book.{out_of};
ghost use Rattle.cred_book.specs.Counts.{IsOutNow};
ghost use Rattle.cred_book.specs.Cursor.{BookStands, steps_left};
ghost use Rattle.cred_book.specs.Works.{IsOfLane};

use cred_book::{Book, Step};
use cred_grammar::{line_count, read};
use cred_hold::Cells;
use cred_ids::{NoMemory, limits};
use cred_work::{NoPause, Work, perform};
use std::alloc::Global;
use std::test::Fail;

/// What a test does in a book, and what it has found there.
pub(crate) trait Walk {
    /// Walks in the book of a script before its first event. No work is out.
    ///
    /// # Errors
    ///
    /// What kept the walk from its end.
    fn walk(&mut self, alloc: Global, cells: &Cells, book: &mut Book) -> Result<(), Fail>
        requires own { book.old.words.id ≡ cells.now }
        requires stands { BookStands book.old }
        requires home { (lane : ℕ) → out_of book.old lane ≡ None };
}

/// Lends the book of a script to a walk.
///
/// # Errors
///
/// A text that is no script, out of memory, or what kept the walk from its end.
pub(crate) fn walk_in_book<W: Walk>(alloc: Global, text: &str, walk: &mut W) -> Result<(), Fail> {
    if line_count(text.as_bytes()) > limits::LINE_LIMIT {
        return Err(Fail::from("too many lines"));
    }
    let script = read(alloc, text.as_bytes())?;
    let (mut book, cells) = Book::new(alloc, script)?;
    let walked = walk.walk(alloc, &cells, &mut book);
    drop(book);
    walked
}

/// Runs all lines whole, in the script's order. What waits for a decision is decided in between.
///
/// # Errors
///
/// Out of memory, or a lane whose line is the least one left and which makes no step.
pub(crate) fn run_whole(alloc: Global, cells: &Cells, book: &mut Book) -> Result<(), Fail>
    requires own { book.old.words.id ≡ cells.now }
    requires stands { BookStands book.old }
    requires home { (lane : ℕ) → out_of book.old lane ≡ None }
    ensures cells { book.new.words.id ≡ book.old.words.id }
    ensures out { OnOk result (book.new.words.out ≡ []) }
{
    'steps: while let Some(lane) = book.least() {
        make_next(alloc, cells, book, lane)?;
    }
    Ok(())
}

/// Makes the next event of the lane.
fn make_next(alloc: Global, cells: &Cells, book: &mut Book, lane: u32) -> Result<(), Fail>
    requires own { book.old.words.id ≡ cells.now }
    requires stands { BookStands book.old }
    requires home { (lane : ℕ) → out_of book.old lane ≡ None }
    ensures cells { book.new.words.id ≡ book.old.words.id }
    ensures stands { BookStands book.new }
    ensures home { OnOk result ((lane : ℕ) → out_of book.new lane ≡ None) }
    ensures falls { OnOk result (steps_left book.new < steps_left book.old) }
{
    match book.next(cells, lane)? {
        Step::More => Ok(()),
        Step::Work(work) => Ok(decide_and_enter(alloc, cells, book, lane, work)?),
        Step::Ended => Err(Fail::from("the least line makes no step")),
    }
}

/// Decides a work of the lane and enters its event.
fn decide_and_enter(
    alloc: Global,
    cells: &Cells,
    book: &mut Book,
    lane: u32,
    work: Work,
) -> Result<(), NoMemory>
    requires own { book.old.words.id ≡ cells.now }
    requires stands { BookStands book.old }
    requires lanes { IsOfLane book.old lane work }
    ensures cells { book.new.words.id ≡ book.old.words.id }
    ensures stands { BookStands book.new }
    ensures outs { OnOk result (IsOutNow book.old book.new lane None) }
    ensures falls { OnOk result (steps_left book.new < steps_left book.old) }
{
    let mut work = work;
    let Ok(()) = perform(alloc, cells, &NoPause, &mut work) else {
        drop(work);
        return Err(NoMemory);
    };
    match book.finish(cells, lane, work) {
        Ok(_) => Ok(()),
        Err(unfinished) => {
            drop(unfinished);
            Err(NoMemory)
        }
    }
}
