//! What the lanes' threads share.
ghost use Rattle.std.specs.Prelude.{◌≡◌};

use crate::cells::KernelCells;
use crate::guard::KernelGuard;
use crate::in_part::InPart;
use crate::name::{Name, Part};
use crate::rest::Rest;
use crate::turns::Turn;
use std::sync::{Mutex, MutexGuard, Wait};
use std::thread::Parker;
use std::time::Duration;

/// How long a worker that finds the lock taken naps before it tries again, in microseconds. Works
/// go out at every other line, and the lock is released for each. A lock that wakes its waiters
/// would put one thread to sleep and wake another as often, which costs more than the line, and
/// what lies under the lock would move from processor to processor. Whoever has the lock knows
/// nothing of a nap, and mostly gets the lock again.
const NAP: u64 = 500;

/// How often a worker tries before it waits to be woken, so that no lane is left out for long.
const NAPS: u32 = 100;

/// A book and a roll behind one lock, and the book's cells beside it, which the threads of all
/// lanes share while a part of the journal is made. Whenever the lock is free, the book is of the
/// name's script and cells, its files stand as the name's do, the roll is the name's, and the
/// entries of earlier parts are the part's.
pub struct Kernel<K: Name, J: Part> {
    cells: KernelCells<K>,
    lock: Mutex<InPart<K, J>>,
}

/// Written out, so that it is proved here alone.
impl<K: Name, J: Part> Drop for Kernel<K, J> {
    fn drop(self) {
        let Kernel { cells, lock } = self;
        drop(cells);
        drop(lock);
    }
}

impl<K: Name, J: Part> Kernel<K, J> {
    /// The kernel, in the part of its journal that begins here.
    pub fn start(rest: Rest<K>) -> Kernel<K, J>
        requires { rest.earlier ≡ J.earlier }
    {
        let (cells, locked) = rest.into_parts();
        Kernel {
            cells,
            lock: Mutex::new(InPart::of(locked)),
        }
    }

    /// The kernel once nobody shares it any more.
    pub fn stop(self) -> Rest<K>
        ensures { result.earlier ≡ J.earlier }
    {
        let Kernel { cells, lock } = self;
        Rest {
            cells,
            locked: lock.into_inner().into_locked(),
        }
    }

    /// Its cells, on which works are decided.
    pub fn cells(&self) -> &KernelCells<K> {
        &self.cells
    }

    /// Gets the lock for the turn's lane, for which it may wait. The turn comes back when the lock
    /// is released.
    // Mostly the lock is free, and then there is nothing to nap on.
    #[inline(always)]
    pub fn lock<R: Wait>(&self, rt: &R, turn: Turn<K>) -> KernelGuard<'_, K, J>
        ensures { result ≡ turn }
    {
        let locked = match self.lock.try_lock() {
            Some(locked) => locked,
            None => self.nap(rt),
        };
        KernelGuard {
            cells: &self.cells,
            locked,
            turn,
        }
    }

    /// Gets the lock once it is free, for which it waits: it naps, and later asks to be woken.
    #[cold]
    #[inline(never)]
    fn nap<R: Wait>(&self, rt: &R) -> MutexGuard<'_, InPart<K, J>> {
        // Nobody unparks this one: to park on it is to nap.
        let parker = Parker::new();
        for _ in 0..NAPS {
            parker.park_timeout(rt, Duration::from_micros(NAP));
            if let Some(locked) = self.lock.try_lock() {
                return locked;
            }
        }
        self.lock.lock(rt)
    }
}
