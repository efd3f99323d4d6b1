//! Scripts of threads and broadcasts, the same at every run.
use std::alloc::Global;
use std::test::Fail;

/// A linear congruential generator.
#[derive(Clone, Copy)]
struct Numbers {
    state: u32,
}

impl Numbers {
    /// The next number below the bound.
    fn below(&mut self, bound: u32) -> u32 {
        self.state = self
            .state
            .wrapping_mul(1_664_525)
            .wrapping_add(1_013_904_223);
        // The low bits repeat soon.
        (self.state >> 16).checked_rem(bound).unwrap_or(0)
    }

    /// One of these, or the last where there is none.
    fn one_of<T: Copy>(&mut self, items: &[T], last: T) -> T {
        let place = self.below(u32::try_from(items.len()).unwrap_or(0));
        items.get(place as usize).copied().unwrap_or(last)
    }
}

/// The first lines: three files, and two processes of several threads beside one of a user's. The
/// user of the last thread of the second process follows.
const SETUP: &str = "file prog reg 0 0 0755\nfile su reg 0 0 4755\nfile shut reg 0 0 0600\n\
    init t5 p3 1000 1000 n0\ninit t1 p1 0 0 n0\ninit t2 p1 0 0 n0\ninit t3 p2 0 0 n0\ninit t4 p2 ";

/// How many lines those are.
const SETUP_LINES: u32 = 8;

// In a form, T, P, H, F and I stand for a task, a process, a label, a descriptor and an id, and L
// for a line that began a broadcast.

/// New threads, ends and steps of threads.
const THREADS: [&str; 26] = [
    "tT spawn tT",
    "tT spawn tT",
    "tT spawn tT",
    "tT fork tT pP",
    "tT exit",
    "tT exit",
    "begin tT setuid 0",
    "begin tT setresgid I I I",
    "begin tT setgroups 3 1",
    "begin tT setresuid -1 I -1",
    "act L",
    "act L",
    "act L",
    "act L",
    "tT setgid I",
    "tT setreuid I -1",
    "tT raw setgid I",
    "tT raw setresuid I I I",
    "tT exec prog",
    "tT exec su",
    "tT capset 0 0 0",
    "tT fork tT pP",
    "take hH tT",
    "drop hH",
    "tT signal tT",
    "sweep",
];

/// Changes of prepared credentials, beside broadcasts.
const CHANGES: [&str; 24] = [
    "take hH tT",
    "take hH tT",
    "takereal hH tT",
    "prepare hH t1 hH",
    "prepare hH t1 hH",
    "prepare hH tT hH",
    "change hH keepcaps 0",
    "change hH keepcaps 1",
    "change hH setfsuid I",
    "change hH capset 0 0 0",
    "change hH exec prog",
    "change hH access",
    "commit hH",
    "commit hH",
    "commit hH",
    "abort hH",
    "drop hH",
    "begin t1 setgid I",
    "begin tT setgroups 9",
    "act L",
    "act L",
    "tT spawn t1",
    "tT spawn tT",
    "tT exit",
];

/// Overrides, beside broadcasts. Task 2 comes to have as many as it may.
const OVERRIDES: [&str; 25] = [
    "take h1 tT",
    "take hH tT",
    "override t2 h1",
    "override t2 h1",
    "override t2 hH",
    "override t2 hH",
    "override tT hH",
    "override tT hH",
    "revert tT",
    "revert tT",
    "prepare hH tT hH",
    "change hH access",
    "change hH access",
    "tT access shut r",
    "tT access prog rx",
    "begin tT setgid I",
    "act L",
    "tT setuid I",
    "tT raw setuid I",
    "commit hH",
    "tT exit",
    "tT spawn tT",
    "tT exec prog",
    "drop hH",
    "sweep",
];

/// Open files, questions and calls on files, beside threads.
const FILES: [&str; 28] = [
    "tT open shut r fF",
    "tT open prog rx fF",
    "tT close fF",
    "takefile hH fF",
    "tT fcap fF 7",
    "drop hH",
    "ask hH caps",
    "ask hH check shut w",
    "take hH tT",
    "override tT hH",
    "revert tT",
    "revert tT",
    "begin tT setresuid I I I",
    "act L",
    "act L",
    "tT setegid I",
    "tT setuid I",
    "tT exec su",
    "tT spawn tT",
    "tT fork tT pP",
    "tT exit",
    "tT check prog x",
    "tT capable 21",
    "tT chown su I -1",
    "tT chmod su 4755",
    "tT clearattr su",
    "tT stat su",
    "sweep",
];

/// Calls that seal many credentials, without a sweep, until slots are taken again.
const LONG: [&str; 9] = [
    "t1 setgid 0",
    "t1 raw setgid 0",
    "t2 setgroups 2",
    "tT setgid 0",
    "tT setgid 5",
    "tT keepcaps 0",
    "tT capable 7",
    "take hH tT",
    "drop hH",
];

/// The forms of the script of this number, and how many lines it has of them.
fn forms_of(number: u32) -> (&'static [&'static str], u32) {
    if number % 150 == 149 {
        return (&LONG, 600);
    }
    match number % 4 {
        0 => (&THREADS, 60),
        1 => (&CHANGES, 80),
        2 => (&OVERRIDES, 80),
        _ => (&FILES, 70),
    }
}

/// The script of this number.
pub(crate) fn script_of(alloc: Global, number: u32) -> Result<String, Fail> {
    let mut numbers = Numbers { state: number };
    let (forms, count) = forms_of(number);
    let mut text = String::from_str(alloc, SETUP)?;
    let user = if numbers.below(3) == 0 { 1000 } else { 0 };
    write!(text, "{user} 0 n0\n")?;
    let mut begun = Vec::new(alloc);
    for line in 0..count {
        let form = numbers.one_of(forms, "sweep");
        write_form(&mut text, &mut numbers, form, &begun)?;
        if form.starts_with("begin") {
            begun.push(line.saturating_add(SETUP_LINES + 1))?;
        }
    }
    Ok(text)
}

/// The number that stands for a letter of a form; none for one that stands for itself.
fn number_for(numbers: &mut Numbers, begun: &[u32], letter: char) -> Option<i64> {
    match letter {
        'T' => Some(1 + i64::from(numbers.below(6))),
        'P' => Some(1 + i64::from(numbers.below(5))),
        'H' | 'F' => Some(1 + i64::from(numbers.below(4))),
        'L' => Some(i64::from(recent(numbers, begun))),
        'I' => Some(numbers.one_of(&[0, 0, -1, 5, 1000], 0)),
        _ => None,
    }
}

/// Writes a line of this form.
fn write_form(
    text: &mut String,
    numbers: &mut Numbers,
    form: &str,
    begun: &[u32],
) -> Result<(), Fail> {
    for letter in form.chars() {
        match number_for(numbers, begun, letter) {
            Some(number) => write!(text, "{number}")?,
            None => text.push(letter)?,
        }
    }
    text.push('\n')?;
    Ok(())
}

/// One of the last three lines that began a broadcast.
fn recent(numbers: &mut Numbers, begun: &[u32]) -> u32 {
    let from = begun.len().saturating_sub(3);
    match begun.get(from..) {
        Some(last) => numbers.one_of(last, 1),
        None => 1,
    }
}
