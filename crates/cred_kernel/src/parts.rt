//! What a kernel is made of.
ghost use Rattle.std.specs.Prelude.{◌≡◌, ◌<◌, ℕ, [], None, IfOk, OnOk};
ghost use Rattle.cred_book.specs.Book.{out_of};
ghost use Rattle.cred_book.specs.Counts.{HasEntered};
ghost use Rattle.cred_book.specs.Cursor.{BookStands, steps_left};
ghost use Rattle.cred_book.specs.Works.{IsOfLane};
ghost use Rattle.cred_kernel.specs.Locks.{IsReadyBook};

use cred_book::{Book, Step, Unfinished};
use cred_hold::Cells;
use cred_ids::NoMemory;
use cred_script::Script;
use cred_turn::Roll;
use cred_work::{NoPause, Work, perform};
use std::alloc::Global;
use std::marker::Model;

/// A book whose setup has run, its cells, and a roll with a row for each of the script's other
/// lanes. Nobody shares them yet.
#[derive(Drop)]
pub struct KernelParts {
    pub(crate) book: Book,
    pub(crate) cells: Cells,
    pub(crate) roll: Roll,
}

impl Model for KernelParts {
    ghost use Rattle.std.specs.Prelude.{◌≡◌, []};
    ghost use Rattle.cred_book.specs.Book.{inodes_in};
    ghost use Rattle.cred_kernel.specs.Locks.{IsNewKernel, KernelParts};

    ghost Value = { KernelParts };

    ghost view = { λ p. record {
      script = p.book.script;
      roll = p.roll.id;
      cells = p.cells;
      inodes = inodes_in p.book;
    } };

    ghost invariant = { λ p. IsNewKernel p.book p.roll
        × (p.book.words.id ≡ p.cells)
        × (p.book.earlier ≡ []) };
}

impl KernelParts {
    /// The parts of a kernel of this script, whose setup is run for it.
    ///
    /// # Errors
    ///
    /// `NoMemory` if an allocation of the book, of an event of the setup or of the roll fails.
    pub fn new(alloc: Global, script: Script) -> Result<KernelParts, NoMemory>
        ensures script { IfOk result (λ parts. parts.script ≡ script) }
    {
        let (book, cells) = set_up(alloc, script)?;
        let Ok(roll) = Roll::make(alloc, book.script().lanes()) else {
            drop(book);
            return Err(NoMemory);
        };
        Ok(KernelParts { book, cells, roll })
    }
}

/// The book of the script after the setup, lane 0, and its cells.
fn set_up(alloc: Global, script: Script) -> Result<(Book, Cells), NoMemory>
    ensures script { IfOk result (λ made. made.0.script ≡ script) }
    ensures ready { IfOk result (λ made. IsReadyBook made.0) }
    ensures own { IfOk result (λ made. made.0.words.id ≡ made.1) }
    ensures earlier { IfOk result (λ made. made.0.earlier ≡ []) }
{
    let (mut book, cells) = Book::new(alloc, script)?;
    match run_setup(alloc, &mut book, &cells) {
        Ok(()) => Ok((book, cells)),
        Err(NoMemory) => {
            drop(book);
            Err(NoMemory)
        }
    }
}

/// Makes all events of the setup. Nobody else has the book yet, so what waits for a decision is
/// decided here.
///
/// # Errors
///
/// `NoMemory` if an allocation of an event, of a work, of the state or of an entry fails.
fn run_setup(alloc: Global, book: &mut Book, cells: &Cells) -> Result<(), NoMemory>
    requires own { book.old.words.id ≡ cells.now }
    requires stands { BookStands book.old }
    requires empty { book.old.journal ≡ [] }
    requires home { (lane : ℕ) → out_of book.old lane ≡ None }
    ensures script { book.new.script ≡ book.old.script }
    ensures earlier { book.new.earlier ≡ book.old.earlier }
    ensures cells { book.new.words.id ≡ book.old.words.id }
    ensures ready { OnOk result (IsReadyBook book.new) }
{
    'setup: loop {
        match book.next(cells, 0)? {
            Step::More => (),
            Step::Work(work) => decide_and_enter(alloc, book, cells, 0, work)?,
            Step::Ended => return Ok(()),
        }
    }
}

/// Decides a work of the lane and enters its event.
///
/// # Errors
///
/// `NoMemory` if an allocation of the decision, of the state or of an entry fails.
fn decide_and_enter(
    alloc: Global,
    book: &mut Book,
    cells: &Cells,
    lane: u32,
    work: Work,
) -> Result<(), NoMemory>
    requires own { book.old.words.id ≡ cells.now }
    requires stands { BookStands book.old }
    requires lanes { IsOfLane book.old lane work }
    ensures script { book.new.script ≡ book.old.script }
    ensures earlier { book.new.earlier ≡ book.old.earlier }
    ensures cells { book.new.words.id ≡ book.old.words.id }
    ensures stands { BookStands book.new }
    ensures falls { OnOk result (steps_left book.new < steps_left book.old) }
    ensures counts { OnOk result (HasEntered book.old book.new lane 1) }
{
    let mut work = work;
    let Ok(()) = perform(alloc, cells, &NoPause, &mut work) else {
        drop(work);
        return Err(NoMemory);
    };
    match book.finish(cells, lane, work) {
        Ok(_) => Ok(()),
        Err(unfinished) => {
            drop(unfinished);
            Err(NoMemory)
        }
    }
}
