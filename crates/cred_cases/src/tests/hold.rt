//! What no clause can say: that each call succeeds where memory is left, that tokens are small, and
//! that holds are read by threads of their own beside a writer.
ghost use Rattle.cred_hold.specs.Tokens.{IsSealed};
ghost use Rattle.std.specs.Prelude.{◌≡◌, ◌≢◌, ◌<◌, ℕ, [], Some, IfOk, slice_get, length};
ghost use Rattle.cred_ids.specs.Limits.{SLOTS};

use crate::tests::parts::id;
use cred_caps::CapSet;
use cred_hold::{Cells, HoldToken, Master, Writer, make, put, read, read_caps, read_ids};
use cred_ids::{Groups, Ids4, NoMemory, limits};
use cred_packed::to_words;
use cred_record::{Cred, first};
use std::alloc::Global;
use std::mem::size_of;
use std::test::Fail;
use std::thread::{Threads, join};

/// What a token has, in bytes: its slot, and a label or whether it was put.
const TOKEN: usize = 8;

#[test]
fn tokens_have_no_room_for_a_credential(rt: HostRuntime) -> Result<(), Fail> {
    assert!(rt; size_of::<HoldToken>() <= TOKEN && size_of::<Writer>() <= TOKEN);
    assert!(rt; size_of::<Cred>() > TOKEN);
    Ok(())
}

/// Puts a credential on a slot.
pub(crate) fn seal(cells: &Cells, master: &mut Master, slot: u32, cred: &Cred)
    requires own { master.old.id ≡ cells.now }
    requires within { slot < SLOTS }
    requires none { master.old.loans ≡ [] }
    ensures master { (master.new.id ≡ master.old.id) × (master.new.loans ≡ []) }
    ensures sealed { slice_get master.new.slots slot ≡ Some (Some cred.now) }
    ensures others { (s : ℕ) → s ≢ slot
        → slice_get master.new.slots s ≡ slice_get master.old.slots s }
{
    let mut writer = master.lend_writer(cells, 0, slot);
    put(cells, &mut writer, cred);
    master.take_back(cells, writer);
}

/// What a hold was read as.
#[derive(Drop)]
struct Found {
    cred: Cred,
    ids: (Ids4, Ids4),
    caps: [CapSet; 5],
}

/// A hold, with what it was read as.
#[derive(Drop)]
struct Read {
    found: Result<Found, NoMemory>,
    hold: HoldToken,
}

fn read_own(alloc: Global, cells: &Cells, mut hold: HoldToken) -> Read
    requires { hold.id ≡ cells.now }
    ensures found { IfOk result.found (λ f. f.cred ≡ hold.cred) }
    ensures hold { result.hold ≡ hold }
{
    let ids = read_ids(cells, &mut hold);
    let caps = read_caps(cells, &mut hold);
    let found = match read(alloc, cells, &mut hold) {
        Ok(cred) => Ok(Found { cred, ids, caps }),
        Err(e) => Err(e),
    };
    Read { found, hold }
}

fn put_own(cells: &Cells, mut writer: Writer, cred: &Cred) -> Writer
    requires { writer.id ≡ cells.now }
    ensures { result ≡ record writer { put = Some cred.now } }
{
    put(cells, &mut writer, cred);
    writer
}

/// Two holds are read, each by a thread of its own.
fn read_two<R: Threads + Sync>(
    rt: &R,
    alloc: Global,
    cells: &Cells,
    one: HoldToken,
    two: HoldToken,
) -> (Read, Read)
    requires { (one.id ≡ cells.now) × (two.id ≡ cells.now) }
    ensures found { IfOk result.0.found (λ f. f.cred ≡ one.cred)
        × IfOk result.1.found (λ f. f.cred ≡ two.cred) }
    ensures holds { (result.0.hold ≡ one) × (result.1.hold ≡ two) }
{
    join(
        rt,
        move || -> Read
            requires { one.id ≡ cells.now }
            ensures { IfOk result.found (λ f. f.cred ≡ one.cred) × (result.hold ≡ one) }
        { read_own(alloc, cells, one) },
        move || -> Read
            requires { two.id ≡ cells.now }
            ensures { IfOk result.found (λ f. f.cred ≡ two.cred) × (result.hold ≡ two) }
        { read_own(alloc, cells, two) },
    )
}

/// A hold is read while a writer puts.
fn read_and_put<R: Threads + Sync>(
    rt: &R,
    alloc: Global,
    cells: &Cells,
    hold: HoldToken,
    writer: Writer,
    cred: &Cred,
) -> (Read, Writer)
    requires { (hold.id ≡ cells.now) × (writer.id ≡ cells.now) }
    ensures found { IfOk result.0.found (λ f. f.cred ≡ hold.cred) }
    ensures tokens { (result.0.hold ≡ hold)
        × (result.1 ≡ record writer { put = Some cred.now }) }
{
    join(
        rt,
        move || -> Read
            requires { hold.id ≡ cells.now }
            ensures { IfOk result.found (λ f. f.cred ≡ hold.cred) × (result.hold ≡ hold) }
        { read_own(alloc, cells, hold) },
        move || -> Writer
            requires { writer.id ≡ cells.now }
            ensures { result ≡ record writer { put = Some cred.entry.now } }
        { put_own(cells, writer, cred) },
    )
}

/// What is lent at once: three holds and a writer.
#[derive(Drop)]
struct LentTokens {
    one: HoldToken,
    two: HoldToken,
    three: HoldToken,
    writer: Writer,
}

/// Lends two holds on slot 0, one on slot 1, and a writer on slot 3.
fn lend_all(cells: &Cells, master: &mut Master) -> LentTokens
    requires own { master.old.id ≡ cells.now }
    requires none { master.old.loans ≡ [] }
    requires sealed { IsSealed master.old.slots 0 × IsSealed master.old.slots 1 }
    ensures master { (master.new.id ≡ cells.now) × (length master.new.loans ≡ 4) }
    ensures holds { (result.one.id ≡ cells.now) × (result.two.id ≡ cells.now)
        × (result.three.id ≡ cells.now) }
    ensures writer { (result.writer.id ≡ cells.now) × (result.writer.slot ≡ 3) }
{
    let one = master.lend(cells, 1, 0);
    let two = master.lend(cells, 2, 0);
    let three = master.lend(cells, 3, 1);
    let writer = master.lend_writer(cells, 4, 3);
    LentTokens {
        one,
        two,
        three,
        writer,
    }
}

/// Takes back all that is lent. Nothing is lent then, and the writer's slot has what was put.
fn return_all(cells: &Cells, master: &mut Master, lent: LentTokens)
    requires own { master.old.id ≡ cells.now }
    requires tokens { (lent.one.id ≡ cells.now) × (lent.two.id ≡ cells.now)
        × (lent.three.id ≡ cells.now) × (lent.writer.id ≡ cells.now) }
    requires all { length master.old.loans ≡ 4 }
    ensures master { (master.new.id ≡ cells.now) × (master.new.loans ≡ []) }
    ensures put { slice_get master.new.slots lent.writer.slot ≡ Some lent.writer.put }
{
    master.give_back(cells, lent.one);
    master.give_back(cells, lent.two);
    master.give_back(cells, lent.three);
    master.take_back(cells, lent.writer);
}

/// What the three holds were read as.
#[derive(Drop)]
struct AllFound {
    one: Result<Found, NoMemory>,
    two: Result<Found, NoMemory>,
    three: Result<Found, NoMemory>,
}

/// All four at once, by a thread each.
fn read_all<R: Threads + Sync>(
    rt: &R,
    alloc: Global,
    cells: &Cells,
    lent: LentTokens,
    cred: &Cred,
) -> (AllFound, LentTokens)
    requires { (lent.one.id ≡ cells.now) × (lent.two.id ≡ cells.now)
        × (lent.three.id ≡ cells.now) × (lent.writer.id ≡ cells.now) }
    ensures tokens { result.1
        ≡ record lent { writer = record lent.writer { put = Some cred.now } } }
{
    let LentTokens {
        one,
        two,
        three,
        writer,
    } = lent;
    let (holds, other) = join(
        rt,
        move || -> (Read, Read)
            requires { (one.id ≡ cells.now) × (two.id ≡ cells.now) }
            ensures { (result.0.hold ≡ one) × (result.1.hold ≡ two) }
        { read_two(rt, alloc, cells, one, two) },
        move || -> (Read, Writer)
            requires { (three.id ≡ cells.now) × (writer.id ≡ cells.now) }
            ensures { (result.0.hold ≡ three)
                × (result.1 ≡ record writer { put = Some cred.entry.now }) }
        { read_and_put(rt, alloc, cells, three, writer, cred) },
    );
    let (first, second) = holds;
    let (third, writer) = other;
    let Read { found, hold: one } = first;
    let found_one = found;
    let Read { found, hold: two } = second;
    let found_two = found;
    let Read { found, hold: three } = third;
    let found = AllFound {
        one: found_one,
        two: found_two,
        three: found,
    };
    let lent = LentTokens {
        one,
        two,
        three,
        writer,
    };
    (found, lent)
}

/// Seals the slots 0, 1 and 2.
fn seal_three(cells: &Cells, master: &mut Master, zero: &Cred, one: &Cred, two: &Cred)
    requires own { master.old.id ≡ cells.now }
    requires none { master.old.loans ≡ [] }
    ensures master { (master.new.id ≡ cells.now) × (master.new.loans ≡ []) }
    ensures sealed { IsSealed master.new.slots 0 × IsSealed master.new.slots 1 }
{
    seal(cells, master, 0, zero);
    seal(cells, master, 1, one);
    seal(cells, master, 2, two);
}

/// Lends all, has each read or put by a thread of its own, and takes all back. Slot 3 is then
/// sealed with what was put.
fn run<R: Threads + Sync>(
    rt: &R,
    alloc: Global,
    cells: &Cells,
    master: &mut Master,
    cred: &Cred,
) -> AllFound
    requires own { master.old.id ≡ cells.now }
    requires none { master.old.loans ≡ [] }
    requires sealed { IsSealed master.old.slots 0 × IsSealed master.old.slots 1 }
    ensures master { (master.new.id ≡ cells.now) × (master.new.loans ≡ []) }
    ensures put { slice_get master.new.slots 3 ≡ Some (Some cred.now) }
{
    let lent = lend_all(cells, master);
    let (found, lent) = read_all(rt, alloc, cells, lent, cred);
    return_all(cells, master, lent);
    found
}

/// Whether a hold was read as the credential, by all three calls.
fn is_read(read: Result<Found, NoMemory>, cred: &Cred) -> Result<bool, NoMemory> {
    let found = read?;
    Ok(
        to_words(&found.cred) == to_words(cred)
            && found.ids == (cred.uid, cred.gid)
            && found.caps == [cred.perm, cred.inh, cred.eff, cred.bound, cred.amb],
    )
}

/// Credentials that are shared.
#[derive(Drop)]
struct FourCreds {
    zero: Cred,
    one: Cred,
    two: Cred,
    many: Cred,
}

/// Shares them, and reads slot 3 at the end.
fn share<R: Threads + Sync>(
    rt: &R,
    alloc: Global,
    cells: &Cells,
    master: &mut Master,
    creds: &FourCreds,
) -> (AllFound, Result<Cred, NoMemory>)
    requires own { master.old.id ≡ cells.now }
    requires none { master.old.loans ≡ [] }
{
    seal_three(cells, master, &creds.zero, &creds.one, &creds.two);
    let found = run(rt, alloc, cells, master, &creds.many);
    let mut hold = master.lend(cells, 5, 3);
    let last = read(alloc, cells, &mut hold);
    master.give_back(cells, hold);
    (found, last)
}

/// A credential of as many groups as one may have.
pub(crate) fn many(alloc: Global) -> Result<Cred, Fail> {
    let list = vec![in alloc; id(77)?; limits::GROUP_LIMIT]?;
    let groups = Groups::from_list(alloc, list.as_slice()).map_err(|_| "no groups")?;
    let mut cred = first(alloc, id(8)?, id(9)?, 1, id(0)?)?;
    cred.groups = groups;
    Ok(cred)
}

fn four_creds(alloc: Global) -> Result<FourCreds, Fail> {
    Ok(FourCreds {
        zero: first(alloc, id(0)?, id(1)?, 3, id(0)?)?,
        one: first(alloc, id(1000)?, id(100)?, 0, id(0)?)?,
        two: first(alloc, id(4294967294)?, id(7)?, 15, id(4294967294)?)?,
        many: many(alloc)?,
    })
}

/// Whether each read found the credential that was put on its slot.
fn are_read(found: AllFound, last: &Cred, creds: &FourCreds) -> Result<bool, NoMemory> {
    let AllFound { one, two, three } = found;
    let holds = is_read(one, &creds.zero)? && is_read(two, &creds.zero)?;
    Ok(holds && is_read(three, &creds.one)? && to_words(last) == to_words(&creds.many))
}

#[test]
fn three_holds_are_read_beside_a_writer(rt: HostRuntime) -> Result<(), Fail> {
    let creds = four_creds(rt.alloc())?;
    let (cells, mut master) = make(rt.alloc())?;
    let (found, last) = share(&rt, rt.alloc(), &cells, &mut master, &creds);
    let last = last?;
    assert!(rt; are_read(found, &last, &creds)?);
    Ok(())
}
