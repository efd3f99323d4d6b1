//! That works are decided where memory is left, which no clause can say.
ghost use Rattle.std.specs.Prelude.{◌≡◌, []};
ghost use Rattle.cred_work.specs.Decisions.{AreOf};

use crate::tests::hold::{many, seal};
use crate::tests::parts::id;
use cred_decide::Made;
use cred_event::{Answer, Change, Query, Told};
use cred_hold::{Cells, Master, make};
use cred_ids::{Arg, Id, Kind, NoMemory};
use cred_record::{Cred, IdList, first};
use cred_work::{NoPause, Pending, Request, Work, perform};
use std::alloc::Global;
use std::test::Fail;

/// What is lent, once it is decided with no file and no root ids.
fn decided(alloc: Global, cells: &Cells, lent: Pending) -> Result<Pending, NoMemory>
    requires own { AreOf cells.now lent }
{
    let asked = Request::new(alloc, 1, None, IdList::of(alloc, &[])?)?;
    let mut work = Work::of(asked, lent);
    perform(alloc, cells, &NoPause, &mut work)?;
    let (_, lent) = work.into_parts();
    Ok(lent)
}

/// What a question about the groups of the credential is decided as.
fn asked(
    alloc: Global,
    cells: &Cells,
    master: &mut Master,
    cred: &Cred,
) -> Result<Pending, NoMemory>
    requires own { master.old.id ≡ cells.now }
    requires none { master.old.loans ≡ [] }
{
    seal(cells, master, 0, cred);
    let hold = master.lend(cells, 1, 0);
    let lent = Pending::Asking {
        hold,
        query: Query::Groups,
        told: None,
    };
    decided(alloc, cells, lent)
}

/// What a change of the credential is decided as.
fn altered(
    alloc: Global,
    cells: &Cells,
    master: &mut Master,
    cred: &Cred,
    change: Change,
) -> Result<Pending, NoMemory>
    requires own { master.old.id ≡ cells.now }
    requires none { master.old.loans ≡ [] }
{
    seal(cells, master, 0, cred);
    let base = master.lend(cells, 1, 0);
    let writer = master.lend_writer(cells, 1, 1);
    let lent = Pending::Altering {
        base,
        writer,
        change,
        made: None,
    };
    decided(alloc, cells, lent)
}

/// Whether the answer is the groups of the credential.
fn tells_groups(decided: &Pending, cred: &Cred) -> bool {
    match decided {
        Pending::Asking {
            told: Some(Answer::Told(Told::Groups(ids))),
            ..
        } => ids.items() == cred.groups.items(),
        _ => false,
    }
}

/// Whether a credential was made with the filesystem user id `now`, where it was `was` before.
fn makes_fs(decided: Pending, was: Id, now: Id) -> bool {
    let Pending::Altering { made, .. } = decided else {
        return false;
    };
    let Some(Ok(made)) = made else {
        return false;
    };
    let Made { answer, cred, .. } = made.into_made();
    match answer {
        Answer::Was { previous } => previous == was && cred.uid.fs == now,
        _ => false,
    }
}

#[test]
fn a_question_is_decided(rt: HostRuntime) -> Result<(), Fail> {
    let cred = many(rt.alloc())?;
    let (cells, mut master) = make(rt.alloc())?;
    let decided = asked(rt.alloc(), &cells, &mut master, &cred)?;
    assert!(rt; tells_groups(&decided, &cred));
    Ok(())
}

#[test]
fn a_change_is_decided(rt: HostRuntime) -> Result<(), Fail> {
    let cred = first(rt.alloc(), id(0)?, id(1)?, 0, id(0)?)?;
    let (cells, mut master) = make(rt.alloc())?;
    let change = Change::SetFs(Kind::User, Arg::Set(id(5)?));
    let decided = altered(rt.alloc(), &cells, &mut master, &cred, change)?;
    assert!(rt; makes_fs(decided, id(0)?, id(5)?));
    Ok(())
}
