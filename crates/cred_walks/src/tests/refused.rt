//! Refusals of events that no script reaches, or none without lanes, by the book's own call: after
//! each of them all is answered as in a book that had none.
mod calls;

ghost use Rattle.std.specs.Prelude.{◌≡◌, []};

use crate::tests::books::{Walk, run_whole, walk_in_book};
use crate::tests::refused::calls::{BROADCAST, NamedEvent, event_of, line_of};
use cred_book::Book;
use cred_hold::Cells;
use cred_ids::limits;
use cred_report::{Text, print};
use std::alloc::Global;
use std::test::Fail;

/// Two processes of two threads each, and one of one. The second thread of the first process waits
/// for its step in the call of the last line.
const SCRIPT: &str = "file a reg 0 0 0600\n\
    init t1 p1 0 0 n0\ninit t2 p1 0 0 n0\ninit t3 p2 0 0 n0\ninit t4 p2 0 0 n0\ninit t5 p3 0 0 n0\n\
    take h1 t1\ntake h3 t3\nt5 open a r f1\nbegin t1 setgid 7\n";

/// An event that is refused, whether all slots are live then, and the text of its entry.
type RefusedRow = (NamedEvent, bool, &'static str);

/// No task 8 or 9 and no label 8 or 9 is there. The answer is what is tested first.
const ROWS: [RefusedRow; 15] = [
    (
        NamedEvent::Init {
            task: 6,
            process: 1,
        },
        false,
        "11 init t6 p1 0 0 n0 -> busy 10\n",
    ),
    (
        NamedEvent::Init {
            task: 1,
            process: 1,
        },
        false,
        "11 init t1 p1 0 0 n0 -> busy 10\n",
    ),
    (
        NamedEvent::Init {
            task: 6,
            process: 6,
        },
        true,
        "11 init t6 p6 0 0 n0 -> table full\n",
    ),
    (
        NamedEvent::Begin {
            line: BROADCAST,
            task: 3,
        },
        false,
        "10 begin t3 setgid 7 -> exists k10\n",
    ),
    (
        NamedEvent::Signal {
            from: 8,
            hold: 8,
            to: 9,
            target: 9,
        },
        false,
        "11 signal t8 h8 t9 h9 -> no task t8\n",
    ),
    (
        NamedEvent::Signal {
            from: 1,
            hold: 8,
            to: 9,
            target: 9,
        },
        false,
        "11 signal t1 h8 t9 h9 -> no task t9\n",
    ),
    (
        NamedEvent::Signal {
            from: 1,
            hold: 8,
            to: 3,
            target: 9,
        },
        false,
        "11 signal t1 h8 t3 h9 -> no hold h8\n",
    ),
    (
        NamedEvent::Signal {
            from: 1,
            hold: 1,
            to: 3,
            target: 9,
        },
        false,
        "11 signal t1 h1 t3 h9 -> no hold h9\n",
    ),
    (
        NamedEvent::Open { hold: 9, fd: 1 },
        false,
        "11 open h9 a r f1 -> no hold h9\n",
    ),
    (
        NamedEvent::Raw { task: 2 },
        false,
        "11 raw t2 setgid 7 -> busy 10\n",
    ),
    (
        NamedEvent::Raw { task: 3 },
        true,
        "11 raw t3 setgid 7 -> table full\n",
    ),
    (
        NamedEvent::Chown { hold: 9 },
        false,
        "11 chown h9 a 0 -1 -> no hold h9\n",
    ),
    (
        NamedEvent::Chmod { hold: 9 },
        false,
        "11 chmod h9 a 4755 -> no hold h9\n",
    ),
    (
        NamedEvent::ClearAttr { hold: 9 },
        false,
        "11 clearattr h9 a -> no hold h9\n",
    ),
    (
        NamedEvent::Stat { hold: 9 },
        false,
        "11 stat h9 a -> no hold h9\n",
    ),
];

/// What has made the sweep that a slot is looked for by, where that is refused.
const SWEEP: (NamedEvent, &str) = (NamedEvent::Sweep, "11 sweep -> ok\n");

/// What comes then: each of the tasks, labels and files is named, and two slots are looked for.
const NEXT: [NamedEvent; 9] = [
    NamedEvent::Take { label: 2, task: 2 },
    NamedEvent::Release { label: 1 },
    NamedEvent::Init {
        task: 7,
        process: 6,
    },
    NamedEvent::Act,
    NamedEvent::Init {
        task: 6,
        process: 1,
    },
    NamedEvent::Signal {
        from: 3,
        hold: 3,
        to: 4,
        target: 2,
    },
    NamedEvent::Open { hold: 3, fd: 2 },
    NamedEvent::Begin {
        line: BROADCAST,
        task: 3,
    },
    NamedEvent::Sweep,
];

/// The text of the entry that an event gets.
fn entered(alloc: Global, cells: &Cells, book: &mut Book, call: NamedEvent) -> Result<Text, Fail>
    requires own { book.old.words.id ≡ cells.now }
    requires home { book.old.words.out ≡ [] }
    ensures words { book.new.words ≡ book.old.words }
{
    let event = event_of(book.script(), call)?;
    book.event(cells, line_of(call), event)?;
    let entry = book.entries().last().ok_or("an entry")?;
    Ok(print(alloc, book.script(), entry)?)
}

/// Whether that of an event more is this text. Without one nothing is entered.
fn is_entered(
    alloc: Global,
    cells: &Cells,
    book: &mut Book,
    more: Option<(NamedEvent, &'static str)>,
) -> Result<bool, Fail>
    requires own { book.old.words.id ≡ cells.now }
    requires home { book.old.words.out ≡ [] }
    ensures words { book.new.words ≡ book.old.words }
{
    let Some((call, text)) = more else {
        return Ok(true);
    };
    let told = entered(alloc, cells, book, call)?;
    Ok(told.items() == text.as_bytes())
}

/// Has the fifth task take all slots, one after another, and holds what stands in each, where they
/// are to be live.
fn fill(alloc: Global, cells: &Cells, book: &mut Book, is_full: bool) -> Result<(), Fail>
    requires own { book.old.words.id ≡ cells.now }
    requires home { book.old.words.out ≡ [] }
    ensures words { book.new.words ≡ book.old.words }
{
    if !is_full {
        return Ok(());
    }
    for label in 100..350 {
        entered(alloc, cells, book, NamedEvent::Take { label, task: 5 })?;
        entered(alloc, cells, book, NamedEvent::Begin { line: 12, task: 5 })?;
    }
    Ok(())
}

/// Adds the texts of the entries that come then.
fn tell_next(alloc: Global, cells: &Cells, book: &mut Book, told: &mut Vec<u8>) -> Result<(), Fail>
    requires own { book.old.words.id ≡ cells.now }
    requires home { book.old.words.out ≡ [] }
{
    for call in NEXT {
        let text = entered(alloc, cells, book, call)?;
        told.extend_from_slice(text.items())?;
    }
    Ok(())
}

/// Adds how many references there are to each slot.
fn tell_uses(book: &Book, told: &mut Vec<u8>) -> Result<(), Fail> {
    for slot in 0..limits::SLOTS as u32 {
        told.push(u8::try_from(book.uses(slot)).unwrap_or(u8::MAX))?;
    }
    Ok(())
}

/// The walk in a book that may have one event more than another, whose entry has a text; and what
/// it has written.
#[derive(Drop)]
struct Behind {
    is_full: bool,
    more: Option<(NamedEvent, &'static str)>,
    is_entered: bool,
    told: Vec<u8>,
}

impl Walk for Behind {
    fn walk(&mut self, alloc: Global, cells: &Cells, book: &mut Book) -> Result<(), Fail> {
        run_whole(alloc, cells, book)?;
        fill(alloc, cells, book, self.is_full)?;
        self.is_entered = is_entered(alloc, cells, book, self.more)?;
        tell_uses(book, &mut self.told)?;
        tell_next(alloc, cells, book, &mut self.told)?;
        tell_uses(book, &mut self.told)
    }
}

/// The walk after this event, or after none, with what it has written.
fn walked(
    alloc: Global,
    is_full: bool,
    more: Option<(NamedEvent, &'static str)>,
) -> Result<Behind, Fail> {
    let mut walk = Behind {
        is_full,
        more,
        is_entered: false,
        told: Vec::new(alloc),
    };
    walk_in_book(alloc, SCRIPT, &mut walk)?;
    Ok(walk)
}

/// Whether the event of a row is refused, and all after it is answered as if it had not been there.
fn is_alike(alloc: Global, (call, is_full, text): RefusedRow) -> Result<bool, Fail> {
    let in_place = if is_full { Some(SWEEP) } else { None };
    let without = walked(alloc, is_full, in_place)?;
    let with = walked(alloc, is_full, Some((call, text)))?;
    Ok(with.is_entered && without.is_entered && with.told == without.told)
}

#[test]
fn behind_a_refusal_all_is_as_if_it_were_not_there(rt: HostRuntime) -> Result<(), Fail> {
    for row in ROWS {
        let is_alike = is_alike(rt.alloc(), row)?;
        let (_, _, text) = row;
        assert!(rt; is_alike, "{text}");
    }
    Ok(())
}
