//! Changes of a credential that is held.
ghost use Rattle.std.specs.Prelude.{◌≡◌, IfOk, OnErr};
ghost use Rattle.std.specs.Option.{option_map};
ghost use Rattle.cred_model.specs.Change.{by_change};
ghost use Rattle.cred_work.specs.Decisions.{put_by};

use crate::made::BoxedMade;
use crate::pause::{NoPause, Pause};
use cred_decide::{Made, change as change_of};
use cred_event::{Answer, Change};
use cred_hold::{Cells, HoldToken, Writer, put, read};
use cred_ids::{Id, NoMemory};
use cred_record::FileInfo;
use std::alloc::Global;

/// Changes the credential that is held, as `cred_decide::change` does, and puts the new one by the
/// writer, if the change isn't refused. The new credential is also returned, since nothing may fail
/// once it is put. The hold stays as it was, and so does the writer after an error. It waits for
/// nobody.
///
/// # Errors
///
/// `NoMemory` if an allocation fails.
pub fn alter(
    alloc: Global,
    cells: &Cells,
    base: &mut HoldToken,
    change: &Change,
    file: Option<&FileInfo>,
    chain: &[Id],
    writer: &mut Writer,
) -> Result<Result<Made, Answer>, NoMemory>
    requires own { (base.old.id ≡ cells.now) × (writer.old.id ≡ cells.now) }
    ensures made { IfOk result (λ made. made ≡ by_change
        (option_map (λ file. file.now) file.entry) chain.now base.old.cred change.now) }
    ensures put { IfOk result (λ made. writer.new ≡ put_by made writer.old) }
    ensures base { base.new ≡ base.old }
    ensures same { OnErr result (writer.new ≡ writer.old) }
{
    let made = make(alloc, cells, &NoPause, base, change, file, chain)?;
    if let Ok(new) = &made {
        put(cells, writer, &new.cred);
    }
    Ok(made)
}

/// The same, for a decision that is kept, and that may be stopped once the words have been read:
/// what the change makes gets memory of its own, before it is put.
///
/// # Errors
///
/// `NoMemory` if an allocation fails.
pub(crate) fn alter_boxed<P: Pause>(
    alloc: Global,
    cells: &Cells,
    pause: &P,
    base: &mut HoldToken,
    change: &Change,
    file: Option<&FileInfo>,
    chain: &[Id],
    writer: &mut Writer,
) -> Result<Result<BoxedMade, Answer>, NoMemory>
    requires own { (base.old.id ≡ cells.now) × (writer.old.id ≡ cells.now) }
    ensures made { IfOk result (λ made. made ≡ by_change
        (option_map (λ file. file.now) file.entry) chain.now base.old.cred change.now) }
    ensures put { IfOk result (λ made. writer.new ≡ put_by made writer.old) }
    ensures base { base.new ≡ base.old }
    ensures same { OnErr result (writer.new ≡ writer.old) }
{
    match make(alloc, cells, pause, base, change, file, chain)? {
        Ok(new) => {
            let new = BoxedMade::new(alloc, new)?;
            put(cells, writer, new.cred());
            Ok(Ok(new))
        }
        Err(answer) => Ok(Err(answer)),
    }
}

/// What the change makes of the credential that is held. The hold stays as it was.
#[inline(always)]
fn make<P: Pause>(
    alloc: Global,
    cells: &Cells,
    pause: &P,
    base: &mut HoldToken,
    change: &Change,
    file: Option<&FileInfo>,
    chain: &[Id],
) -> Result<Result<Made, Answer>, NoMemory>
    requires own { base.old.id ≡ cells.now }
    ensures made { IfOk result (λ made. made ≡ by_change
        (option_map (λ file. file.now) file.entry) chain.now base.old.cred change.now) }
    ensures base { base.new ≡ base.old }
{
    let old = read(alloc, cells, base)?;
    pause.pause();
    change_of(&old, file, chain, change)
}
