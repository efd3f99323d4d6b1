//! Some 300 scripts of threads and broadcasts, each walked through by hand: every refusal of the
//! state, every number and slot in the answers, and at the end how many references there are to
//! each slot are compared with plain lists.
mod labels;
mod lists;
mod refusals;
mod scripts;
mod tasks;
mod walk;

ghost use Rattle.cred_ids.specs.Limits.{SLOTS};

use crate::tests::books::{Walk, run_whole, walk_in_book};
use crate::tests::counted::lists::{Lists, SLOTS};
use crate::tests::counted::scripts::script_of;
use cred_book::Book;
use cred_event::{AbortCause, Answer, Entry, Event};
use cred_hold::Cells;
use cred_ids::NoMemory;
use std::alloc::Global;
use std::test::Fail;

/// How many scripts there are.
const SCRIPTS: u32 = 300;

/// What the scripts have to reach.
#[derive(Clone, Copy, PartialEq, Eq, Debug)]
enum Reached {
    Aborted,
    EndedByExec,
    WaitingExit,
    WaitingChild,
    Followed,
    SlotsTakenAgain,
    TooDeep,
    Overridden,
    NotOverridden,
    Stale,
    NoBroadcast,
    BusyPrepare,
    BusyCommit,
    BusySpawn,
    BusyFork,
    BusyExit,
    BusyBegin,
    BusyRaw,
}

const ALL: [Reached; 18] = [
    Reached::Aborted,
    Reached::EndedByExec,
    Reached::WaitingExit,
    Reached::WaitingChild,
    Reached::Followed,
    Reached::SlotsTakenAgain,
    Reached::TooDeep,
    Reached::Overridden,
    Reached::NotOverridden,
    Reached::Stale,
    Reached::NoBroadcast,
    Reached::BusyPrepare,
    Reached::BusyCommit,
    Reached::BusySpawn,
    Reached::BusyFork,
    Reached::BusyExit,
    Reached::BusyBegin,
    Reached::BusyRaw,
];

/// What an entry reaches where the lists are so.
fn reached_by(lists: &Lists, entry: &Entry) -> Option<Reached> {
    match &entry.answer {
        Answer::Aborted {
            cause: AbortCause::Perm,
            ..
        } => Some(Reached::Aborted),
        Answer::Executed { ended, .. } if *ended > 1 => Some(Reached::EndedByExec),
        Answer::Done | Answer::Sealed { .. } => waiting_at(lists, &entry.event),
        Answer::Acted { left: 0, .. } => Some(Reached::Followed),
        Answer::Began { cred, .. } if *cred >= u64::from(SLOTS) => Some(Reached::SlotsTakenAgain),
        Answer::TooDeep => Some(Reached::TooDeep),
        Answer::Overridden(_) => Some(Reached::Overridden),
        Answer::NotOverridden => Some(Reached::NotOverridden),
        Answer::Stale { .. } => Some(Reached::Stale),
        Answer::NoBroadcast(_) => Some(Reached::NoBroadcast),
        Answer::Busy(_) => busy_at(&entry.event),
        _ => None,
    }
}

/// What an event of a thread that waits reaches.
fn waiting_at(lists: &Lists, event: &Event) -> Option<Reached> {
    match event {
        Event::Exit { task } if lists.waits(*task) => Some(Reached::WaitingExit),
        Event::Spawn { task, .. } if lists.waits(*task) => Some(Reached::WaitingChild),
        _ => None,
    }
}

/// What an event reaches that an open broadcast refuses.
fn busy_at(event: &Event) -> Option<Reached> {
    match event {
        Event::Prepare { .. } => Some(Reached::BusyPrepare),
        Event::Commit { .. } => Some(Reached::BusyCommit),
        Event::Spawn { .. } => Some(Reached::BusySpawn),
        Event::Fork { .. } => Some(Reached::BusyFork),
        Event::Exit { .. } => Some(Reached::BusyExit),
        Event::Begin { .. } => Some(Reached::BusyBegin),
        Event::Raw { .. } => Some(Reached::BusyRaw),
        _ => None,
    }
}

/// Adds what an entry reaches, if nothing reached it before.
fn note(reached: &mut Vec<Reached>, lists: &Lists, entry: &Entry) -> Result<(), NoMemory> {
    if let Some(mark) = reached_by(lists, entry) {
        if !reached.contains(&mark) {
            reached.push(mark)?;
        }
    }
    Ok(())
}

/// What is otherwise than in the lists: an entry, by its place, or the references to a slot.
#[derive(Clone, Copy, PartialEq, Eq, Debug)]
enum Other {
    Entry(usize),
    Slot(u32),
}

/// How many references there are to this slot.
fn count_of(used: &[u32], slot: u32) -> u64 {
    used.iter().filter(|own| **own == slot).count() as u64
}

/// The first entry, by its place, that the lists don't give so.
fn first_entry(
    journal: &[Entry],
    lists: &mut Lists,
    reached: &mut Vec<Reached>,
) -> Result<Option<usize>, NoMemory> {
    for (place, entry) in journal.iter().enumerate() {
        note(reached, lists, entry)?;
        if !lists.follows(entry)? {
            return Ok(Some(place));
        }
    }
    Ok(None)
}

/// The first slot to which there are not so many references.
fn first_slot(book: &Book, used: &[u32]) -> Option<u32> {
    (0..SLOTS).find(|slot| book.uses(*slot) != count_of(used, *slot))
}

/// What is otherwise first in the run of a script.
fn first_other(
    alloc: Global,
    book: &Book,
    reached: &mut Vec<Reached>,
) -> Result<Option<Other>, NoMemory> {
    let mut lists = Lists::new(alloc);
    if let Some(place) = first_entry(book.entries(), &mut lists, reached)? {
        return Ok(Some(Other::Entry(place)));
    }
    let used = lists.used()?;
    match first_slot(book, &used) {
        Some(slot) => Ok(Some(Other::Slot(slot))),
        None => Ok(None),
    }
}

/// The walk along a run's entries, with what is otherwise first in the last script, and what all
/// scripts so far have reached.
#[derive(Drop)]
struct Comparison {
    other: Option<Other>,
    reached: Vec<Reached>,
}

impl Walk for Comparison {
    fn walk(&mut self, alloc: Global, cells: &Cells, book: &mut Book) -> Result<(), Fail> {
        run_whole(alloc, cells, book)?;
        self.other = first_other(alloc, book, &mut self.reached)?;
        Ok(())
    }
}

/// What is otherwise in the script of this number.
fn other_in(alloc: Global, walk: &mut Comparison, number: u32) -> Result<Option<Other>, Fail> {
    let text = script_of(alloc, number)?;
    let walked = walk_in_book(alloc, text.as_str(), walk);
    drop(text);
    walked?;
    Ok(walk.other)
}

/// The first script, by its number, in which something is otherwise.
fn first_script(alloc: Global, walk: &mut Comparison) -> Result<Option<(u32, Other)>, Fail> {
    for number in 0..SCRIPTS {
        if let Some(other) = other_in(alloc, walk, number)? {
            return Ok(Some((number, other)));
        }
    }
    Ok(None)
}

#[test]
fn references_are_counted(rt: HostRuntime) -> Result<(), Fail> {
    let mut walk = Comparison {
        other: None,
        reached: Vec::new(rt.alloc()),
    };
    let other = first_script(rt.alloc(), &mut walk);
    let missing = ALL
        .iter()
        .find(|mark| !walk.reached.contains(mark))
        .copied();
    drop(walk);
    let other = other?;
    assert!(rt; other.is_none(), "{other:?}");
    assert!(rt; missing.is_none(), "{missing:?}");
    Ok(())
}
