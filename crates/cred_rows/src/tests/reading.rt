//! Texts of entries, read and printed again; and texts that are those of none.
use cred_event::{Answer, Told};
use cred_ids::NoMemory;
use cred_reader::read;
use cred_report::print;
use cred_script::Script;
use std::alloc::Global;
use std::test::Fail;

fn script(alloc: Global) -> Result<Script, &'static str> {
    let text = b"ns 3 0 0\nfile svc reg 0 0 0755\nfile log reg 0 0 0644\ninit t1 p1 0 0 n0\n";
    cred_grammar::read(alloc, text).map_err(|_| "a script")
}

/// Each event once, and each answer.
static TEXTS: [&str; 92] = [
    "1 init t1 p1 0 0 n0 -> ok c0 s0\n",
    "4294967295 init t4294967295 p0 4294967294 0 n3 -> exists t4294967295\n",
    "1 init t1 p1 0 0 n0 -> busy 3\n",
    "1 init t1 p1 0 0 n0 -> too many tasks\n",
    "1 init t1 p1 0 0 n0 -> table full\n",
    "3 take h100030 t1 -> ok c18446744073709551615 s255\n",
    "3 take h1 t2 -> no task t2\n",
    "3 takereal h1 t2 -> exists h1\n",
    "3 takereal h1 t2 -> too many holds\n",
    "3 takefile h1 f2 -> ok c1 s1\n",
    "3 takefile h1 f2 -> ebadf\n",
    "3 drop h100030 -> ok\n",
    "3 drop h100030 -> no hold h100030\n",
    "4 ask h1 ids -> ok 1 2 3 4 5 6 7 8\n",
    "4 ask h1 caps -> ok 0 0 400 1ffffffffff 0\n",
    "4 ask h1 groups -> ok\n",
    "4 ask h1 groups -> ok 10\n",
    "4 ask h1 groups -> ok 30 10 20 10\n",
    "4 ask h1 bits -> ok 255 1\n",
    "4 ask h1 capable 41 -> einval\n",
    "4 ask h1 capable 21 -> ok 1\n",
    "4 ask h1 bset 21 -> ok 0\n",
    "4 ask h1 ambis 21 -> ok 0\n",
    "4 ask h1 check svc rx -> ok\n",
    "4 ask h1 check log rwx -> eacces\n",
    "5 signal t1 h1 t2 h2 -> ok\n",
    "5 signal t1 h1 t2 h2 -> eperm\n",
    "5 ptrace fs t1 h1 t2 h2 -> ok\n",
    "5 ptrace real t1 h1 t2 h2 -> eperm\n",
    "5 dumpable t1 1 -> ok\n",
    "5 dumpable t1 2 -> einval\n",
    "5 dumped t1 -> ok 0\n",
    "6 prepare h2 t1 h1 -> ok s5\n",
    "6 prepare h2 t1 h1 -> too many prepared\n",
    "7 change h2 setfsuid 1000 -> ok was 0\n",
    "7 change h2 setfsgid -1 -> ok was 4294967294\n",
    "7 change h2 capset 1ffffffffff 0 400 -> ok\n",
    "7 change h2 capdrop 41 -> einval\n",
    "7 change h2 ambraise 10 -> eperm\n",
    "7 change h2 amblower 10 -> ok\n",
    "7 change h2 ambclear -> ok\n",
    "7 change h2 securebits 4294967295 -> eperm\n",
    "7 change h2 keepcaps 1 -> ok\n",
    "7 change h2 nonewprivs 1 -> no prepared h2\n",
    "7 change h2 exec svc -> eacces\n",
    "7 change h2 access -> ok\n",
    "8 commit h2 -> ok c5 s5\n",
    "8 commit h2 -> ok c5 s5 ended 2 gain 400 0 1ffffffffff\n",
    "8 commit h2 -> stale c1 c2\n",
    "8 commit h2 -> overridden 1\n",
    "9 abort h2 -> ok\n",
    "10 override t1 h1 -> too deep\n",
    "10 override t1 h1 -> ok c1 s1\n",
    "11 revert t1 -> not overridden\n",
    "12 begin t1 setuid 1000 -> ok c2 s2 left 0\n",
    "12 begin t1 seteuid -1 -> einval\n",
    "12 begin t1 setreuid 1 -1 -> exists k12\n",
    "12 begin t1 setresuid 1 2 3 -> busy 11\n",
    "12 begin t1 setgid 1 -> ok c2 s2 left 3\n",
    "12 begin t1 setegid 1 -> ok c2 s2 left 3\n",
    "12 begin t1 setregid 1 2 -> ok c2 s2 left 3\n",
    "12 begin t1 setresgid 1 2 3 -> ok c2 s2 left 3\n",
    "12 begin t1 setgroups -> ok c2 s2 left 0\n",
    "12 begin t1 setgroups 30 10 20 -> eperm\n",
    "13 act 12 -> ok t2 c3 s3 left 1\n",
    "13 act 12 -> aborted t2 eperm\n",
    "13 act 12 -> no broadcast 12\n",
    "13 act 12 -> aborted t2 full\n",
    "14 open h1 log rw f7 -> too many files\n",
    "14 open h1 log w f7 -> exists f7\n",
    "14 close f7 -> ok\n",
    "15 spawn t1 t2 -> ok c1 s1\n",
    "15 fork t1 t2 p2 -> exists p2\n",
    "16 exit t1 -> ok\n",
    "17 sweep -> ok\n",
    "18 chown h1 svc 0 -1 -> ok\n",
    "18 chown h1 svc -1 4294967294 -> eperm\n",
    "18 chown h1 log -1 -1 -> no hold h1\n",
    "18 chmod h1 svc 7777 -> ok\n",
    "18 chmod h1 svc 0000 -> eperm\n",
    "18 setattr h1 svc 0100000200200000000000000000000000000000 -> ok\n",
    "18 setattr h1 svc 00ff -> einval\n",
    "18 clearattr h1 log -> eperm\n",
    "18 clearattr h1 log -> ok\n",
    "18 stat h1 log -> ok 0 4294967294 0644 0\n",
    "18 stat h1 svc -> ok 1000 50 4755 1\n",
    "18 stat h1 svc -> no hold h1\n",
    "19 raw t1 setresuid 5 -1 5 -> ok c9 s9\n",
    "19 raw t1 setgroups 30 10 20 -> eperm\n",
    "19 raw t1 seteuid -1 -> einval\n",
    "19 raw t1 setgid 7 -> busy 12\n",
    "19 raw t1 setuid 7 -> overridden 2\n",
];

/// Texts that are those of no entry.
static NONE: [&str; 52] = [
    "",
    "\n",
    "17 sweep -> ok",
    "17 sweep -> ok\n\n",
    "17 sweep -> ok \n",
    " 17 sweep -> ok\n",
    "17  sweep -> ok\n",
    "017 sweep -> ok\n",
    "4294967296 sweep -> ok\n",
    "17 sweep ok\n",
    "17 sweep -> eperm\n",
    "17 sweep -> ok c0 s0\n",
    "17 sweep now -> ok\n",
    "1 init t1 p1 0 0 n1 -> ok c0 s0\n",
    "1 init t1 p1 4294967295 0 n0 -> ok c0 s0\n",
    "3 take h1 t01 -> ok c0 s0\n",
    "3 take h1 t1 -> ok c18446744073709551616 s0\n",
    "4 ask h1 ids -> ok 1 2 3 4 5 6 7\n",
    "4 ask h1 caps -> ok 0 0 0 1FFFFFFFFFF 0\n",
    "4 ask h1 caps -> ok 0 0 0 20000000000 0\n",
    "4 ask h1 bits -> ok 256 0\n",
    "4 ask h1 capable CAP_KILL -> ok 0\n",
    "4 ask h1 capable 40 -> einval\n",
    "4 ask h1 bset 41 -> ok 0\n",
    "4 ask h1 check ghost r -> ok\n",
    "7 change h2 setfsuid 1000 -> ok\n",
    "7 change h2 capset 0 0 0 -> eperm\n",
    "7 change h2 capset 400 0 1ffffffffff -> ok\n",
    "7 change h2 capset 400 0 400 -> einval\n",
    "7 change h2 ambraise 41 -> ok\n",
    "7 change h2 ambclear -> einval\n",
    "7 change h2 securebits 256 -> ok\n",
    "7 change h2 keepcaps 2 -> eperm\n",
    "7 change h2 nonewprivs 1 -> eperm\n",
    "8 commit h2 -> ok c5 s5 ended 2 gains 400 0 0\n",
    "12 begin t1 setuid -1 -> ok c2 s2 left 0\n",
    "12 begin t1 setreuid 1 -1 -> einval\n",
    "12 begin t1 setresuid -1 -1 -1 -> eperm\n",
    "12 begin t1 setgroups 30 10 20 -> einval\n",
    "13 act 12 -> aborted t2 late\n",
    "18 chown h1 svc -1 -1 -> eperm\n",
    "18 chown h1 ghost 0 0 -> ok\n",
    "18 chmod h1 svc 755 -> ok\n",
    "18 chmod h1 svc 0788 -> ok\n",
    "18 setattr h1 svc 0x00ff -> einval\n",
    "18 setattr h1 svc 00FF -> einval\n",
    "18 setattr h1 svc -> ok\n",
    "18 clearattr h1 svc -> einval\n",
    "18 stat h1 svc -> ok 0 0 644 0\n",
    "18 stat h1 svc -> ok 0 0 0644\n",
    "19 raw t1 setuid 7 -> ok c9 s9 left 0\n",
    "19 raw t1 capset 0 0 0 -> ok c9 s9\n",
];

/// What an answer means that begins with `ok`.
#[derive(Clone, Copy, PartialEq, Eq)]
enum Meant {
    Done,
    NoGroups,
    Yes,
}

/// What the answer means, where it is one of these.
fn meant_by(answer: &Answer) -> Option<Meant> {
    match answer {
        Answer::Done => Some(Meant::Done),
        Answer::Told(Told::Groups(groups)) if groups.items().is_empty() => Some(Meant::NoGroups),
        Answer::Told(Told::Flag(true)) => Some(Meant::Yes),
        _ => None,
    }
}

/// Texts of entries with their answers: `ok` says no more than the event lets it say.
static ANSWERS: [(&str, Meant); 3] = [
    ("3 drop h1 -> ok\n", Meant::Done),
    ("4 ask h1 groups -> ok\n", Meant::NoGroups),
    ("4 ask h1 capable 1 -> ok 1\n", Meant::Yes),
];

/// The calls that set ids, and whether some caller is answered `ok`, `eperm` and `einval` for these
/// arguments (setuid(2), seteuid(2), setreuid(2), setresuid(2), setgroups(2)).
static ID_CALLS: [(&str, [bool; 3]); 17] = [
    ("setuid 5", [true, true, false]),
    ("setuid -1", [false, false, true]),
    ("seteuid 5", [true, true, false]),
    ("seteuid -1", [false, false, true]),
    ("setreuid -1 5", [true, true, false]),
    ("setreuid -1 -1", [true, false, false]),
    ("setresuid -1 -1 5", [true, true, false]),
    ("setresuid -1 -1 -1", [true, false, false]),
    ("setgid 5", [true, true, false]),
    ("setgid -1", [false, false, true]),
    ("setegid 5", [true, true, false]),
    ("setegid -1", [false, false, true]),
    ("setregid 5 -1", [true, true, false]),
    ("setregid -1 -1", [true, false, false]),
    ("setresgid 5 -1 -1", [true, true, false]),
    ("setresgid -1 -1 -1", [true, false, false]),
    ("setgroups 7 7", [true, true, false]),
];

/// The same of changes of sets and securebits (capset(2), prctl(2), capabilities(7)).
static CHANGES: [(&str, [bool; 3]); 17] = [
    ("capset 400 400 400", [true, true, false]),
    ("capset 0 0 0", [true, false, false]),
    ("capset 400 0 1ffffffffff", [false, true, false]),
    ("capdrop 40", [true, true, false]),
    ("capdrop 41", [false, true, true]),
    ("ambraise 40", [true, true, false]),
    ("ambraise 41", [false, false, true]),
    ("amblower 40", [true, false, false]),
    ("amblower 41", [false, false, true]),
    ("ambclear", [true, false, false]),
    ("securebits 255", [true, true, false]),
    ("securebits 256", [false, true, false]),
    ("keepcaps 0", [true, true, false]),
    ("keepcaps 2", [false, false, true]),
    ("nonewprivs 1", [true, false, false]),
    ("nonewprivs 0", [false, false, true]),
    ("setfsuid 5", [false, false, false]),
];

/// The same of calls on files (chown(2), chmod(2), setxattr(2), stat(2)).
static FILE_CALLS: [(&str, [bool; 3]); 8] = [
    ("chown h1 svc 5 -1", [true, true, false]),
    ("chown h1 svc -1 5", [true, true, false]),
    ("chown h1 svc -1 -1", [true, false, false]),
    ("chmod h1 svc 4755", [true, true, false]),
    ("clearattr h1 svc", [true, true, false]),
    (
        "setattr h1 svc 010000010000000000000000",
        [true, true, false],
    ),
    ("setattr h1 svc 0100", [false, true, true]),
    ("stat h1 svc", [false, false, false]),
];

/// What comes of a text that is read and printed again.
#[derive(Clone, Copy, PartialEq, Eq)]
enum Came {
    Back,
    Changed,
    Nothing,
}

fn came_of(alloc: Global, script: &Script, text: &str) -> Result<Came, NoMemory> {
    let Some(entry) = read(alloc, script, text.as_bytes())? else {
        return Ok(Came::Nothing);
    };
    let printed = print(alloc, script, &entry);
    drop(entry);
    let is_same = printed?.items() == text.as_bytes();
    Ok(if is_same { Came::Back } else { Came::Changed })
}

/// The first text of which something else comes.
fn first_other(
    alloc: Global,
    script: &Script,
    texts: &[&'static str],
    want: Came,
) -> Result<Option<&'static str>, NoMemory> {
    for text in texts {
        if came_of(alloc, script, text)? != want {
            return Ok(Some(*text));
        }
    }
    Ok(None)
}

/// Whether the text is that of an entry with this answer.
fn answers(alloc: Global, script: &Script, text: &str, want: Meant) -> Result<bool, NoMemory> {
    let Some(entry) = read(alloc, script, text.as_bytes())? else {
        return Ok(false);
    };
    let meant = meant_by(&entry.answer);
    drop(entry);
    Ok(meant == Some(want))
}

/// The first text of an entry that has another answer.
fn first_answer(alloc: Global, script: &Script) -> Result<Option<&'static str>, NoMemory> {
    for (text, want) in &ANSWERS {
        if !answers(alloc, script, text, *want)? {
            return Ok(Some(*text));
        }
    }
    Ok(None)
}

/// Whether the event, by its first words and the others, may be given the answer.
fn fits(
    alloc: Global,
    script: &Script,
    (start, event): (&str, &str),
    answer: &str,
) -> Result<bool, NoMemory> {
    let text = format!(in alloc; "7 {start}{event} -> {answer}\n")?;
    let entry = read(alloc, script, text.as_bytes());
    drop(text);
    let entry = entry?;
    let is_some = entry.is_some();
    drop(entry);
    Ok(is_some)
}

/// The first of these events that is given an answer which it may not have, or not given one that
/// it may. All begin with these words, and `done` is the answer of a call that is made.
fn first_misfit(
    alloc: Global,
    script: &Script,
    (start, done): (&str, &str),
    events: &[(&'static str, [bool; 3])],
) -> Result<Option<&'static str>, NoMemory> {
    for (event, answered) in events {
        for (answer, want) in [done, "eperm", "einval"].iter().zip(answered) {
            if fits(alloc, script, (start, event), answer)? != *want {
                return Ok(Some(*event));
            }
        }
    }
    Ok(None)
}

/// The first text of the three tables that is read otherwise.
fn first_misread(alloc: Global, script: &Script) -> Result<Option<&'static str>, NoMemory> {
    let lost = first_other(alloc, script, &TEXTS, Came::Back)?;
    let taken = first_other(alloc, script, &NONE, Came::Nothing)?;
    Ok(lost.or(taken).or(first_answer(alloc, script)?))
}

/// The first event whose answers are others than its call may be given.
fn first_misanswered(alloc: Global, script: &Script) -> Result<Option<&'static str>, NoMemory> {
    let begun = first_misfit(alloc, script, ("begin t1 ", "ok c2 s2 left 0"), &ID_CALLS)?;
    let raw = first_misfit(alloc, script, ("raw t1 ", "ok c2 s2"), &ID_CALLS)?;
    let changed = first_misfit(alloc, script, ("change h2 ", "ok"), &CHANGES)?;
    let on_file = first_misfit(alloc, script, ("", "ok"), &FILE_CALLS)?;
    Ok(begun.or(raw).or(changed).or(on_file))
}

#[test]
fn answers_are_those_of_the_call(rt: HostRuntime) -> Result<(), Fail> {
    let script = script(rt.alloc())?;
    let misanswered = first_misanswered(rt.alloc(), &script);
    drop(script);
    let misanswered = misanswered?;
    assert!(rt; misanswered.is_none(), "{misanswered:?}");
    Ok(())
}

#[test]
fn texts_of_entries_are_read(rt: HostRuntime) -> Result<(), Fail> {
    let script = script(rt.alloc())?;
    let misread = first_misread(rt.alloc(), &script);
    drop(script);
    let misread = misread?;
    assert!(rt; misread.is_none(), "{misread:?}");
    Ok(())
}
