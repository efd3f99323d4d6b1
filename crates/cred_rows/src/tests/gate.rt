//! A gate that holds lanes at places, each until others have come to theirs.
use cred_ids::NoMemory;
use cred_lanes::{Gate, Place};
use std::alloc::Global;
use std::sync::atomic::{AtomicU64, Ordering};
use std::thread;

/// A place of a lane: before the decision of a line, in it, or after it.
#[derive(Clone, Copy, PartialEq, Eq, Debug)]
pub(crate) struct At(pub(crate) u32, pub(crate) u32, pub(crate) Place);

impl At {
    /// How far a lane is that stands here: the further, the greater. A lane that has not come to
    /// any place is at 0.
    fn distance(self) -> u64 {
        let At(_, line, place) = self;
        match place {
            Place::BeforeDecision => 3 * u64::from(line),
            Place::InDecision => 3 * u64::from(line) + 1,
            Place::AfterDecision => 3 * u64::from(line) + 2,
        }
    }
}

/// A stop: who comes to the first place waits there until lanes have come to all others.
#[derive(Clone, Copy)]
pub(crate) struct Stop(pub(crate) At, pub(crate) &'static [At]);

/// What went wrong at the gate.
#[derive(Clone, Copy, PartialEq, Eq, Debug)]
pub(crate) enum GateFault {
    /// At this stop a lane has waited for others in vain.
    InVain(At),
    /// A lane has come to a place of this line out of turn: not before the decision, in it and
    /// after it, one after another.
    OutOfTurn(u64),
    /// No lane has come to this stop.
    PassedBy(At),
}

/// How often a lane at a stop looks for the others, at most.
const LOOKS: u64 = 50_000_000;

/// After so many looks a lane lets other threads run.
const LOOKS_AT_ONCE: u64 = 64;

/// The lanes that a script may have, and the setup.
const LANES: usize = 17;

/// A stop to which no lane has come, one at which a lane has met the others, and one at which it
/// has waited in vain.
const OPEN: u64 = 0;

const MET: u64 = 1;

const IN_VAIN: u64 = 2;

/// The stops, what has become of each, how far each lane has come, to which place each has come
/// last, whether some wait was in vain, and the line of a place to which a lane has come out of
/// turn. There is no line 0.
#[derive(Drop)]
pub(crate) struct StopGate<'m> {
    stops: &'m [Stop],
    ends: Vec<AtomicU64>,
    lanes: Vec<AtomicU64>,
    lasts: Vec<AtomicU64>,
    is_over: AtomicU64,
    out_of_turn: AtomicU64,
}

/// So many words of 0.
fn words(alloc: Global, count: usize) -> Result<Vec<AtomicU64>, NoMemory> {
    let mut words = Vec::new(alloc);
    for _ in 0..count {
        words.push(AtomicU64::new(0))?;
    }
    Ok(words)
}

impl StopGate<'_> {
    /// A gate with these stops, to which no lane has come.
    pub(crate) fn at(alloc: Global, stops: &[Stop]) -> Result<StopGate<'_>, NoMemory> {
        Ok(StopGate {
            stops,
            ends: words(alloc, stops.len())?,
            lanes: words(alloc, LANES)?,
            lasts: words(alloc, LANES)?,
            is_over: AtomicU64::new(0),
            out_of_turn: AtomicU64::new(0),
        })
    }

    /// What went wrong, once all lanes have ended.
    pub(crate) fn fault(&self) -> Option<GateFault> {
        let out_of_turn = self.out_of_turn.load(Ordering::SeqCst);
        if let Some(place) = self.first_stop(IN_VAIN) {
            Some(GateFault::InVain(place))
        } else if out_of_turn != 0 {
            Some(GateFault::OutOfTurn(out_of_turn))
        } else {
            self.first_stop(OPEN).map(GateFault::PassedBy)
        }
    }

    /// The first stop that has ended so.
    fn first_stop(&self, end: u64) -> Option<At> {
        for (Stop(place, _), word) in self.stops.iter().zip(self.ends.iter()) {
            if word.load(Ordering::SeqCst) == end {
                return Some(*place);
            }
        }
        None
    }

    /// Puts down that a lane has come to this place, and says whether it was its turn: a lane comes
    /// to each decision three times, before it, in it and after it, and makes one after another.
    fn arrive(&self, place: At) -> bool {
        let At(lane, line, side) = place;
        let lane = lane as usize;
        let (Some(furthest), Some(word)) = (self.lanes.get(lane), self.lasts.get(lane)) else {
            return false;
        };
        let last = word.load(Ordering::SeqCst);
        word.store(place.distance(), Ordering::SeqCst);
        // A line whose commit came too late decides again.
        if furthest.load(Ordering::SeqCst) < place.distance() {
            furthest.store(place.distance(), Ordering::SeqCst);
        }
        match side {
            Place::BeforeDecision => last == 0 || (last % 3 == 2 && last / 3 <= u64::from(line)),
            Place::InDecision | Place::AfterDecision => last.saturating_add(1) == place.distance(),
        }
    }

    /// Whether the lane of this place has come there, or further.
    fn has_come(&self, place: At) -> bool {
        let At(lane, _, _) = place;
        let Some(word) = self.lanes.get(lane as usize) else {
            return false;
        };
        word.load(Ordering::SeqCst) >= place.distance()
    }

    /// Whether lanes have come to all these places, or do while they are looked for. Once some wait
    /// was in vain, there is no use in looking.
    fn all_come(&self, places: &[At]) -> bool {
        for look in 0..LOOKS {
            if places.iter().all(|place| self.has_come(*place)) {
                return true;
            }
            if look % LOOKS_AT_ONCE == 0 {
                if self.is_over.load(Ordering::SeqCst) != 0 {
                    return false;
                }
                thread::yield_now();
            }
        }
        false
    }
}

impl Gate for StopGate<'_> {
    fn pause(&self, lane: u32, line: u32, place: Place) {
        let here = At(lane, line, place);
        if !self.arrive(here) {
            self.out_of_turn.store(u64::from(line), Ordering::SeqCst);
        }
        for (Stop(at, others), end) in self.stops.iter().zip(self.ends.iter()) {
            if *at != here {
                continue;
            }
            if !self.all_come(others) {
                end.store(IN_VAIN, Ordering::SeqCst);
                self.is_over.store(1, Ordering::SeqCst);
            } else if end.load(Ordering::SeqCst) == OPEN {
                end.store(MET, Ordering::SeqCst);
            }
        }
    }
}
