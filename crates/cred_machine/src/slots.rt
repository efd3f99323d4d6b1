//! Which slot a new credential takes.
ghost use Rattle.std.specs.Prelude.{◌≡◌, ℕ, ◌+◌, ◌<◌, ◌≤◌, ◌==◌, ◌||◌, ◌++◌, [], false, true};
ghost use Rattle.std.specs.Prelude.{find, is_some, length, map, not, if◌then◌else◌};
ghost use Rattle.std.specs.Prelude.{IfOk, IfSome, IsOk, OnOk, OnErr, vec_capacity, vec_len};
ghost use Rattle.std.specs.List.{flat_map, list_any};
ghost use Rattle.cred_ids.specs.Limits.{SLOTS, slots};
ghost use Rattle.cred_event.specs.declared.answer.Answer.TheVariants.{TableFull};
ghost use Rattle.cred_model.specs.Ends.{left_by};
ghost use Rattle.cred_model.specs.Slots as model;
ghost use Rattle.cred_model.specs.Slots.{least_free, free, in_use, stands_in};
ghost use Rattle.cred_plain.specs.Tasks.{ends_by};
ghost use Rattle.cred_machine.specs.Slots.{AreLive, HasTaken, is_live_by, is_marked};

use crate::state::State;
use cred_event::Answer;
use cred_ids::{NoMemory, limits};
use cred_plain::{Creds, Ending, Hold, OpenFile, Prepared, Task, Tasks};
use std::alloc::Global;
use std::marker::Model;

/// How many slots there are.
const SLOTS: u32 = limits::SLOTS as u32;

/// The slots that something stands in or that are kept, as a mark for each slot.
#[derive(Drop)]
pub struct Marks {
    marks: Vec<bool>,
    /// All slots below this one are marked.
    marked_below: u32,
}

impl Model for Marks {
    ghost use Rattle.std.specs.Prelude.{List, Bool};
    ghost use Rattle.cred_machine.specs.Slots.{IsMarking};

    ghost Value = { List Bool };

    ghost view = { λ m. m.marks.items };

    ghost invariant = { λ m. IsMarking m.marks.items m.marked_below };
}

impl Marks {
    /// Marks on no slot.
    ///
    /// # Errors
    ///
    /// `NoMemory` if the allocation of the marks fails.
    pub fn new(alloc: Global) -> Result<Marks, NoMemory>
        ensures { IfOk result (λ marks. (slot : ℕ) → is_marked marks slot ≡ false) }
    {
        Ok(Marks {
            marks: vec![in alloc; false; SLOTS as usize]?,
            marked_below: 0,
        })
    }

    /// Marks a slot, if there is one of this number.
    pub fn put(&mut self, slot: u32)
        ensures { (other : ℕ) → other < SLOTS
            → is_marked self.new other ≡ (is_marked self.old other || (slot == other)) }
    {
        if slot < SLOTS {
            self.marks[slot as usize] = true;
        }
    }

    /// The marks after a call took this slot, where no sweep was made for it: a sweep gives slots
    /// back, and which isn't known.
    pub fn after_call(mut self, taken: u32, swept: bool) -> Option<Marks>
        ensures { IfSome result (λ marks. (swept ≡ false) × HasTaken self taken marks) }
    {
        if swept {
            return None;
        }
        self.put(taken);
        Some(self)
    }

    /// Marks the slot that the credential of this number stands in.
    fn put_of(&mut self, creds: &Creds, number: u64)
        ensures { (slot : ℕ) → slot < SLOTS → is_marked self.new slot
            ≡ (is_marked self.old slot || stands_in creds.now.list slot number) }
    {
        if let Some(slot) = creds.slot_of(number) {
            self.put(slot);
        }
    }

    /// Marks the slots that the credentials of these numbers stand in.
    fn put_all(&mut self, creds: &Creds, numbers: &[u64])
        ensures { (slot : ℕ) → slot < SLOTS → is_marked self.new slot
            ≡ (is_marked self.old slot || list_any (stands_in creds.now.list slot) numbers.now) }
    {
        for number in numbers {
            self.put_of(creds, *number);
        }
    }

    /// Marks the slots that these labels keep.
    fn keep(&mut self, prepared: &[Prepared])
        ensures { (slot : ℕ) → slot < SLOTS → is_marked self.new slot
            ≡ (is_marked self.old slot || list_any (λ p. p.slot == slot) prepared.now) }
    {
        for label in prepared {
            self.put(label.slot);
        }
    }

    /// The least slot that isn't marked. The next search begins there.
    pub fn first_clear(&mut self) -> Option<u32>
        ensures slot { result ≡ find (λ slot. not (is_marked self.old slot)) slots }
        ensures marks { self.new ≡ self.old }
    {
        self.marked_below = clear_from(&self.marks, self.marked_below);
        if self.marked_below < SLOTS {
            return Some(self.marked_below);
        }
        None
    }
}

/// The first slot from this one on that isn't marked, or how many slots there are.
fn clear_from(marks: &[bool], first: u32) -> u32
    requires slots { length marks.now ≡ SLOTS }
    requires below { (slot : ℕ) → slot < first → is_marked marks.now slot ≡ true }
    ensures marked { (slot : ℕ) → slot < result → is_marked marks.now slot ≡ true }
    ensures clear { result < SLOTS → is_marked marks.now result ≡ false }
{
    for slot in first..SLOTS {
        if !marks[slot as usize] {
            return slot;
        }
    }
    SLOTS
}

/// The slot that a new credential takes, if one is free, and whether that needs a sweep.
#[derive(Clone, Copy)]
pub struct Room {
    pub slot: Option<u32>,
    pub swept: bool,
}

impl State {
    /// The numbers that are referred to, a list for each kind of thing that refers, one after
    /// another. What was given up isn't among them.
    ///
    /// # Errors
    ///
    /// `NoMemory` if an allocation of the list fails.
    pub(crate) fn in_use(&self) -> Result<Vec<u64>, NoMemory>
        ensures { IfOk result (λ numbers. numbers.items ≡ in_use self.now) }
    {
        let mut numbers = Vec::with_capacity(self.alloc, self.tasks.items().len())?;
        add_current(self.tasks.items(), &mut numbers)?;
        add_overrides(self.tasks.items(), &mut numbers)?;
        add_openers(&self.files, &mut numbers)?;
        add_held(&self.holds, &mut numbers)?;
        add_bases(&self.prepared, &mut numbers)?;
        Ok(numbers)
    }

    /// Which slots are live, by a search through all that refers.
    ///
    /// # Errors
    ///
    /// `NoMemory` if the allocation of a list fails.
    pub(crate) fn mark_live(&self) -> Result<Marks, NoMemory>
        ensures { IfOk result (λ marks. AreLive marks self.now) }
    {
        let in_use = self.in_use()?;
        marks_of(
            self.alloc,
            &self.creds,
            &in_use,
            &self.deferred,
            &self.prepared,
        )
    }

    /// Which slots are live after a sweep.
    fn mark_live_swept(&self) -> Result<Marks, NoMemory>
        ensures { IfOk result (λ marks. AreLive marks (model.swept self.now)) }
    {
        let in_use = self.in_use()?;
        marks_of(self.alloc, &self.creds, &in_use, &[], &self.prepared)
    }

    /// The slot that a new credential takes. Where all are live, a sweep frees those that only what
    /// was given up stands in.
    ///
    /// # Errors
    ///
    /// `NoMemory` if the allocation of a list fails.
    pub(crate) fn room(&self) -> Result<Room, NoMemory>
        ensures slot { IfOk result (λ room. room.slot ≡ free self.now) }
        ensures swept { IfOk result (λ room. room.swept ≡ not (is_some (least_free self.now))) }
    {
        let mut live = self.mark_live()?;
        self.room_in(&mut live)
    }

    /// The same, where the live slots are marked.
    ///
    /// # Errors
    ///
    /// `NoMemory` if the allocation of a list fails.
    pub(crate) fn room_in(&self, live: &mut Marks) -> Result<Room, NoMemory>
        requires { AreLive live.old self.now }
        ensures slot { IfOk result (λ room. room.slot ≡ free self.now) }
        ensures swept { IfOk result (λ room. room.swept ≡ not (is_some (least_free self.now))) }
        ensures marks { live.new ≡ live.old }
    {
        let slot = live.first_clear();
        if slot.is_some() {
            return Ok(Room { slot, swept: false });
        }
        let mut live_swept = self.mark_live_swept()?;
        let slot = live_swept.first_clear();
        Ok(Room { slot, swept: true })
    }
}

impl State {
    /// Drops all that was given up.
    pub(crate) fn sweep(&mut self)
        ensures { self.new ≡ model.swept self.old }
    {
        self.deferred.clear();
    }

    /// Sweeps, and returns the answer for the case that no slot is free even then.
    pub(crate) fn table_full(&mut self) -> Answer
        ensures answer { result ≡ TableFull }
        ensures state { self.new ≡ model.swept self.old }
    {
        self.sweep();
        Answer::TableFull
    }
}

/// Which slots are live: the marks, where they are known, or else those found by a search through
/// all that refers.
///
/// # Errors
///
/// `NoMemory` if the allocation of a list fails.
pub fn live_slots(state: &State, known: Option<Marks>) -> Result<Marks, NoMemory>
    requires { IfSome known (λ marks. AreLive marks state.now) }
    ensures { IfOk result (λ marks. AreLive marks state.now) }
{
    match known {
        Some(marks) => Ok(marks),
        None => state.mark_live(),
    }
}

/// The slots that are kept, and those that one of these numbers stands in.
fn marks_of(
    alloc: Global,
    creds: &Creds,
    in_use: &[u64],
    late: &[u64],
    prepared: &[Prepared],
) -> Result<Marks, NoMemory>
    ensures { IfOk result (λ marks. (slot : ℕ) → slot < SLOTS → is_marked marks slot
        ≡ is_live_by creds.now.list (in_use.now ++ late.now)
        (map (λ p. p.slot) prepared.now) slot) }
{
    let mut marks = Marks::new(alloc)?;
    marks.put_all(creds, in_use);
    marks.put_all(creds, late);
    marks.keep(prepared);
    Ok(marks)
}

fn add_current(tasks: &[Task], numbers: &mut Vec<u64>) -> Result<(), NoMemory>
    ensures { OnOk result
        (numbers.new.items ≡ numbers.old.items ++ map (λ t. t.current) tasks.now) }
{
    for task in tasks {
        numbers.push(task.current)?;
    }
    Ok(())
}

fn add_overrides(tasks: &[Task], numbers: &mut Vec<u64>) -> Result<(), NoMemory>
    ensures { OnOk result
        (numbers.new.items ≡ numbers.old.items ++ flat_map (λ t. t.overrides) tasks.now) }
{
    for task in tasks {
        numbers.extend_from_slice(&task.overrides)?;
    }
    Ok(())
}

fn add_openers(files: &[OpenFile], numbers: &mut Vec<u64>) -> Result<(), NoMemory>
    ensures { OnOk result
        (numbers.new.items ≡ numbers.old.items ++ map (λ f. f.opener) files.now) }
{
    for file in files {
        numbers.push(file.opener)?;
    }
    Ok(())
}

fn add_held(holds: &[Hold], numbers: &mut Vec<u64>) -> Result<(), NoMemory>
    ensures { OnOk result
        (numbers.new.items ≡ numbers.old.items ++ map (λ h. h.number) holds.now) }
{
    for hold in holds {
        numbers.push(hold.number)?;
    }
    Ok(())
}

fn add_bases(prepared: &[Prepared], numbers: &mut Vec<u64>) -> Result<(), NoMemory>
    ensures { OnOk result
        (numbers.new.items ≡ numbers.old.items ++ map (λ p. p.base) prepared.now) }
{
    for label in prepared {
        numbers.push(label.base)?;
    }
    Ok(())
}

/// Drops what was given up, if there is a sweep.
pub fn sweep_if(late: &mut Vec<u64>, swept: bool)
    ensures items { late.new.items ≡ (if swept then [] else late.old.items) }
    ensures fewer { vec_len late.new ≤ vec_len late.old }
    ensures capacity { vec_capacity late.new ≡ vec_capacity late.old }
{
    if swept {
        late.clear();
    }
}

/// Gives up references to these numbers, after a sweep if there is one. Where there is room,
/// nothing is allocated.
///
/// # Errors
///
/// `NoMemory` if an allocation fails: nothing changes.
pub fn defer(late: &mut Vec<u64>, swept: bool, numbers: &[u64]) -> Result<(), NoMemory>
    ensures ok { OnOk result
        (late.new.items ≡ (if swept then [] else late.old.items) ++ numbers.now) }
    ensures err { OnErr result (late.new.items ≡ late.old.items) }
    ensures room { vec_len late.old + length numbers.now ≤ vec_capacity late.old → IsOk result }
{
    late.reserve(numbers.len())?;
    sweep_if(late, swept);
    late.extend_from_slice(numbers)?;
    Ok(())
}

/// Gives up what the ending tasks refer to, after a sweep if there is one.
///
/// # Errors
///
/// `NoMemory` if an allocation fails: nothing changes.
pub fn defer_left(
    late: &mut Vec<u64>,
    swept: bool,
    tasks: &Tasks,
    ending: Ending,
) -> Result<(), NoMemory>
    ensures ok { OnOk result (late.new.items
        ≡ (if swept then [] else late.old.items) ++ left_by (ends_by ending) tasks.now) }
    ensures err { OnErr result (late.new.items ≡ late.old.items) }
{
    let numbers = tasks.left(ending)?;
    defer(late, swept, &numbers)
}

/// Makes room for one credential more, and gives up references to these numbers, after a sweep if
/// there is one.
///
/// # Errors
///
/// `NoMemory` if an allocation fails: neither list changes.
pub fn make_room(
    creds: &mut Creds,
    late: &mut Vec<u64>,
    swept: bool,
    numbers: &[u64],
) -> Result<(), NoMemory>
    ensures list { creds.new.list ≡ creds.old.list }
    ensures room { OnOk result (creds.new.roomy ≡ true) }
    ensures ok { OnOk result
        (late.new.items ≡ (if swept then [] else late.old.items) ++ numbers.now) }
    ensures err { OnErr result (late.new.items ≡ late.old.items) }
{
    creds.reserve()?;
    defer(late, swept, numbers)
}
