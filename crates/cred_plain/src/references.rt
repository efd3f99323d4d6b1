//! All that refers to credentials.
ghost use Rattle.std.specs.Prelude.{◌≡◌, ◌≤◌, ◌==◌, ◌||◌, true, All};
ghost use Rattle.std.specs.List.{list_any};
ghost use Rattle.cred_model.specs.Ends.{numbers_of};
ghost use Rattle.cred_plain.specs.References.{is_among, is_named, is_used, refer_to, UsesNoneBelow};

use crate::files::OpenFile;
use crate::labels::{Hold, Prepared};
use crate::one_task::Task;

/// What refers to credentials by their numbers: the live tasks, the open files, the holds and the
/// prepared labels, and the numbers that were given up since the last sweep.
#[derive(Clone, Copy)]
pub struct References<'a> {
    pub tasks: &'a [Task],
    pub files: &'a [OpenFile],
    pub holds: &'a [Hold],
    pub prepared: &'a [Prepared],
    pub deferred: &'a [u64],
}

/// The least number that a task refers to, or `u64::MAX` where there is no task; and where that
/// task stands, if the number is its current credential's.
#[derive(Clone, Copy)]
pub(crate) struct Oldest {
    number: u64,
    place: usize,
}

impl References<'_> {
    /// What a task has referred to the longest.
    pub(crate) fn oldest(&self) -> Oldest
        ensures { UsesNoneBelow self.now result.number }
    {
        let number = least_in(self.tasks);
        let found = self.tasks.iter().position(|task| task.current == number);
        Oldest {
            number,
            place: found.unwrap_or(0),
        }
    }

    /// Whether something refers to this number, where no task refers to one below the oldest.
    pub(crate) fn refer_to(&self, number: u64, oldest: Oldest) -> bool
        ensures { UsesNoneBelow self.now oldest.number → result ≡ refer_to self.now number }
    {
        self.used_from(number, oldest) || self.named(number) || self.deferred.contains(&number)
    }

    /// Whether a task does. This is asked of each stored credential after every sweep. Nearly all
    /// that nothing refers to are older than the oldest that a task refers to: for those the tasks
    /// are not searched.
    fn used_from(&self, number: u64, oldest: Oldest) -> bool
        ensures { UsesNoneBelow self.now oldest.number → result ≡ is_used self.now number }
    {
        number >= oldest.number && (self.used_in_turn(number, oldest) || self.used(number))
    }

    /// Whether a task does that is found without a search. The threads of a process make a call one
    /// after another, and they mostly stand in that order: so their numbers mostly follow one
    /// another, from the oldest on.
    fn used_in_turn(&self, number: u64, oldest: Oldest) -> bool
        requires { oldest.number ≤ number }
        ensures { result ≡ true → is_used self.now number ≡ true }
    {
        let behind = oldest.place.wrapping_add((number - oldest.number) as usize);
        let Some(place) = behind.checked_rem(self.tasks.len()) else {
            return false;
        };
        let task = &self.tasks[place];
        task.current == number
    }

    /// Whether a task does, by a search through all of them.
    fn used(&self, number: u64) -> bool
        ensures { result ≡ is_used self.now number }
    {
        is_with_task(self.tasks, number)
    }

    /// Whether an open file, a hold or a prepared label does.
    fn named(&self, number: u64) -> bool
        ensures { result ≡ is_named self.now number }
    {
        is_opener(self.files, number)
            || is_held(self.holds, number)
            || is_base(self.prepared, number)
    }
}

fn is_with_task(tasks: &[Task], number: u64) -> bool
    ensures { result
        ≡ list_any (λ t. t.current == number || is_among t.overrides number) tasks.now }
{
    tasks.iter().any(|task| task.current == number || task.overrides.contains(&number))
}

/// The least number that these tasks refer to, or `u64::MAX` where there is none.
fn least_in(tasks: &[Task]) -> u64
    ensures { All (λ t. All (λ n. result ≤ n) (numbers_of t)) tasks.now }
{
    let mut least = u64::MAX;
    for task in tasks {
        least = least.min(task.least());
    }
    least
}

fn is_opener(files: &[OpenFile], number: u64) -> bool
    ensures { result ≡ list_any (λ f. f.opener == number) files.now }
{
    files.iter().any(|file| file.opener == number)
}

fn is_held(holds: &[Hold], number: u64) -> bool
    ensures { result ≡ list_any (λ h. h.number == number) holds.now }
{
    holds.iter().any(|hold| hold.number == number)
}

fn is_base(prepared: &[Prepared], number: u64) -> bool
    ensures { result ≡ list_any (λ p. p.base == number) prepared.now }
{
    prepared.iter().any(|label| label.base == number)
}
