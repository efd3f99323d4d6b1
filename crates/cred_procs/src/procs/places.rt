//! Where the tasks stand in the table, and the current credentials that are read and written there.
ghost use Rattle.std.specs.Prelude.{◌≡◌, ◌<◌, is_some, length, slice_get, true, Some, IfSome};
ghost use Rattle.std.specs.Option.{option_map, IsSome};
ghost use Rattle.cred_model.specs.Moves.{with_current};
ghost use Rattle.cred_procs.specs.Tasks.{task_in};

use crate::procs::Procs;

impl Procs {
    /// Where a task stands in the table, until a task ends. `None` where it isn't alive.
    #[inline(always)]
    pub fn place(&self, task: u32) -> Option<usize>
        ensures place { IfSome result (λ place.
            slice_get self.now place ≡ task_in self.now task) }
        ensures alive { is_some result ≡ is_some (task_in self.now task) }
    {
        // A broadcast goes from one thread to the next, and they mostly stand in that order.
        let next = self.recent.wrapping_add(1);
        if self.stands_at(next, task) {
            return Some(next);
        }
        self.place_of(task)
    }

    /// The same, looked for first where a task was given a credential last: a course of events
    /// keeps to one task, whose number then isn't hashed again.
    #[inline(always)]
    pub(super) fn place_of(&self, task: u32) -> Option<usize>
        ensures place { IfSome result (λ place.
            slice_get self.now place ≡ task_in self.now task) }
        ensures alive { is_some result ≡ is_some (task_in self.now task) }
    {
        if self.stands_at(self.recent, task) {
            return Some(self.recent);
        }
        self.tasks.get_index_of(&task)
    }

    /// Whether a place has the task of this number.
    #[inline(always)]
    fn stands_at(&self, place: usize, task: u32) -> bool
        ensures place { result ≡ true → slice_get self.now place ≡ task_in self.now task }
        ensures alive { result ≡ true → IsSome (task_in self.now task) }
    {
        match self.tasks.get_index(place) {
            Some((number, _)) => *number == task,
            None => false,
        }
    }

    /// The number of the current credential of the task at a place.
    #[inline(always)]
    pub fn current_at(&self, place: usize) -> u64
        requires { place < length self.now }
        ensures { Some result ≡ option_map (λ t. t.current) (slice_get self.now place) }
    {
        self.tasks[place].current
    }

    /// Gives the task at a place another current credential.
    #[inline(always)]
    pub fn set_current_at(&mut self, place: usize, number: u64)
        requires { place < length self.old }
        ensures { IfSome (slice_get self.old place) (λ t.
            self.new ≡ with_current self.old t.number number) }
    {
        self.tasks[place].current = number;
        self.recent = place;
    }

    /// Gives a task another current credential, and returns the number of the one before.
    #[inline(always)]
    pub fn set_current(&mut self, task: u32, number: u64) -> u64
        requires { IsSome (task_in self.old task) }
        ensures previous { Some result ≡ option_map (λ t. t.current) (task_in self.old task) }
        ensures tasks { self.new ≡ with_current self.old task number }
    {
        // It is there: the task is alive.
        let place = self.place_of(task).unwrap();
        let previous = self.current_at(place);
        self.set_current_at(place, number);
        previous
    }
}
