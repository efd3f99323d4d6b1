//! The lines whose works are out, and the copy of a file that a work gets.
ghost use Rattle.std.specs.Prelude.{◌≡◌, ◌+◌, IfOk, None, replicate};
ghost use Rattle.cred_script.specs.Lanes.{lanes};

use cred_ids::NoMemory;
use cred_record::FileInfo;
use cred_script::Script;
use std::alloc::Global;

/// For each lane of a script, from 0 to the last, no line whose work is out.
///
/// # Errors
///
/// `NoMemory` if the list could not be allocated.
pub(crate) fn none_out(alloc: Global, script: &Script) -> Result<Vec<Option<u32>>, NoMemory>
    ensures { IfOk result (λ outs. outs.items ≡ replicate (lanes script.now.lines + 1) None) }
{
    let outs: Vec<Option<u32>> = vec![in alloc; None; script.lanes() as usize + 1]?;
    Ok(outs)
}

/// An equal file in memory of its own.
///
/// # Errors
///
/// `NoMemory` where the file has a capability attribute, whose bytes could not be copied.
pub(crate) fn copy_file(file: &FileInfo) -> Result<FileInfo, NoMemory>
    ensures { IfOk result (λ copy. copy ≡ file.now) }
{
    let attr = match &file.attr {
        Some(attr) => Some(attr.copy()?),
        None => None,
    };
    Ok(FileInfo {
        kind: file.kind,
        owner: file.owner,
        group: file.group,
        mode: file.mode,
        nosuid: file.nosuid,
        attr,
    })
}
