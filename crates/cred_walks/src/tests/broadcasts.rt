//! What an open broadcast refuses and no script reaches, by the book's own call: a first task in
//! its process, and another broadcast under its number.
ghost use Rattle.std.specs.Prelude.{◌≡◌, [], ℕ, List, IfOk};
ghost use Rattle.cred_model.specs.Named.{IsEventOf};
ghost use Rattle.cred_model.specs.Script.{Namespace};

use crate::tests::books::{Walk, run_whole, walk_in_book};
use cred_book::Book;
use cred_event::Event;
use cred_hold::Cells;
use cred_ids::{Arg, Id, limits};
use cred_record::IdCall;
use cred_report::print;
use std::alloc::Global;
use std::test::Fail;

/// Two processes of two threads each. The second thread of the first one waits for its step.
const SCRIPT: &str = "init t1 p1 0 0 n0\ninit t2 p1 0 0 n0\ninit t3 p2 0 0 n0\ninit t4 p2 0 0 n0\n\
    begin t1 setgid 7\n";

/// An event that an open broadcast may refuse, or the next step in the broadcast of a line.
#[derive(Clone, Copy)]
enum BroadcastEvent {
    Init { task: u32, process: u32 },
    Begin { task: u32 },
    Act { broadcast: u32 },
}

/// A line and its event, the text of its entry, and how many references there are to the first
/// slots then; to all others there are none.
type BroadcastRow = (u32, BroadcastEvent, &'static str, [u64; 8]);

const ROWS: [BroadcastRow; 8] = [
    (
        6,
        BroadcastEvent::Init {
            task: 5,
            process: 1,
        },
        "6 init t5 p1 0 0 n0 -> busy 5\n",
        [1, 1, 1, 1, 1, 0, 0, 0],
    ),
    // An open broadcast is the answer before a task that exists, and before another of its number.
    (
        6,
        BroadcastEvent::Init {
            task: 1,
            process: 1,
        },
        "6 init t1 p1 0 0 n0 -> busy 5\n",
        [1, 1, 1, 1, 1, 0, 0, 0],
    ),
    (
        5,
        BroadcastEvent::Begin { task: 2 },
        "5 begin t2 setgid 7 -> busy 5\n",
        [1, 1, 1, 1, 1, 0, 0, 0],
    ),
    // Its own caller can't begin another either.
    (
        6,
        BroadcastEvent::Begin { task: 1 },
        "6 begin t1 setgid 7 -> busy 5\n",
        [1, 1, 1, 1, 1, 0, 0, 0],
    ),
    (
        5,
        BroadcastEvent::Begin { task: 3 },
        "5 begin t3 setgid 7 -> exists k5\n",
        [1, 1, 1, 1, 1, 0, 0, 0],
    ),
    // None of them has left anything.
    (
        6,
        BroadcastEvent::Act { broadcast: 5 },
        "6 act 5 -> ok t2 c5 s5 left 0\n",
        [1, 1, 1, 1, 1, 1, 0, 0],
    ),
    (
        6,
        BroadcastEvent::Init {
            task: 5,
            process: 1,
        },
        "6 init t5 p1 0 0 n0 -> ok c6 s6\n",
        [1, 1, 1, 1, 1, 1, 1, 0],
    ),
    (
        5,
        BroadcastEvent::Begin { task: 3 },
        "5 begin t3 setgid 7 -> ok c7 s7 left 1\n",
        [1; 8],
    ),
];

fn event_of(call: BroadcastEvent) -> Result<Event, Fail>
    ensures { IfOk result (λ event.
        (files : ℕ) (declared : List Namespace) → IsEventOf files declared event) }
{
    let root = Id::new(0).ok_or("root")?;
    match call {
        BroadcastEvent::Init { task, process } => Ok(Event::Init {
            task,
            process,
            user: root,
            group: root,
            ns: 0,
        }),
        BroadcastEvent::Begin { task } => Ok(Event::Begin {
            task,
            call: IdCall::SetGid(Arg::of(7)),
        }),
        BroadcastEvent::Act { broadcast } => Ok(Event::Act { broadcast }),
    }
}

/// Whether the entry that the event of a line gets has this text.
fn is_entered(
    alloc: Global,
    cells: &Cells,
    book: &mut Book,
    line: u32,
    call: BroadcastEvent,
    text: &str,
) -> Result<bool, Fail>
    requires own { book.old.words.id ≡ cells.now }
    requires home { book.old.words.out ≡ [] }
    ensures words { book.new.words ≡ book.old.words }
{
    book.event(cells, line, event_of(call)?)?;
    let entry = book.entries().last().ok_or("an entry")?;
    let printed = print(alloc, book.script(), entry)?;
    Ok(printed.items() == text.as_bytes())
}

/// Whether there are so many references to the first slots, and none to the others.
fn are_used(book: &Book, first: [u64; 8]) -> bool {
    (0..limits::SLOTS as u32).all(|slot| {
        let uses = first.get(slot as usize).copied().unwrap_or(0);
        book.uses(slot) == uses
    })
}

/// The text of the first row that goes otherwise.
fn first_other(alloc: Global, cells: &Cells, book: &mut Book) -> Result<Option<&'static str>, Fail>
    requires own { book.old.words.id ≡ cells.now }
    requires home { book.old.words.out ≡ [] }
{
    'rows: for (line, call, text, first) in &ROWS {
        let is_entered = is_entered(alloc, cells, book, *line, *call, text)?;
        if !is_entered || !are_used(book, *first) {
            return Ok(Some(*text));
        }
    }
    Ok(None)
}

/// The walk along the rows, and the text of the first one that goes otherwise.
#[derive(Drop)]
struct Rows {
    other: Option<&'static str>,
}

impl Walk for Rows {
    fn walk(&mut self, alloc: Global, cells: &Cells, book: &mut Book) -> Result<(), Fail> {
        run_whole(alloc, cells, book)?;
        self.other = first_other(alloc, cells, book)?;
        Ok(())
    }
}

#[test]
fn refusals_of_an_open_broadcast_leave_the_state(rt: HostRuntime) -> Result<(), Fail> {
    let mut rows = Rows { other: None };
    walk_in_book(rt.alloc(), SCRIPT, &mut rows)?;
    let other = rows.other;
    assert!(rt; other.is_none(), "{other:?}");
    Ok(())
}
