//! The changes of a credential that a line names: their arguments.
ghost use Rattle.cred_spelling.specs.Read.{Says, nows};
ghost use Rattle.cred_grammar.specs.Changes as spec;

use crate::named::file_at;
use cred_caps::CapSet;
use cred_event::Change;
use cred_ids::Arg;
use cred_record::AdjCall;
use cred_script::DeclaredFiles;
use cred_spelling::{ChangeName, Number, Reason, SpelledCap, bare, one, three};

/// A change, by its name, with its arguments. A file is given by its place, from 0 to 256: the
/// number of files where none has the name.
///
/// # Errors
///
/// `Reason::Count` where the words are more or fewer than the change has, `Reason::Word` where one
/// spells no argument.
#[tactic(auto, unfolding(crate::specs::Changes::change_of))]
pub fn change_of(files: &DeclaredFiles, name: ChangeName, words: &[&[u8]]) -> Result<Change, Reason>
    ensures { Says (λ change. change) result (spec.change_of files.now name (nows words.now)) }
{
    match name {
        ChangeName::SetFs(kind) => Ok(Change::SetFs(kind, one::<Arg>(words)?)),
        ChangeName::Capset => {
            let (perm, inh, eff) = three::<CapSet, CapSet, CapSet>(words)?;
            Ok(Change::Adjust(AdjCall::Capset { perm, inh, eff }))
        }
        ChangeName::BoundDrop => Ok(Change::Adjust(AdjCall::BoundDrop(one::<SpelledCap>(words)?))),
        ChangeName::AmbRaise => Ok(Change::Adjust(AdjCall::AmbRaise(one::<SpelledCap>(words)?))),
        ChangeName::AmbLower => Ok(Change::Adjust(AdjCall::AmbLower(one::<SpelledCap>(words)?))),
        ChangeName::AmbClear => bare(words, Change::Adjust(AdjCall::AmbClear)),
        ChangeName::Bits => Ok(Change::Adjust(AdjCall::Bits(one::<Number>(words)?))),
        ChangeName::KeepCaps => Ok(Change::Adjust(AdjCall::KeepCaps(one::<Number>(words)?))),
        ChangeName::NoNewPrivs => Ok(Change::Adjust(AdjCall::NoNewPrivs(one::<Number>(words)?))),
        ChangeName::Exec => exec_of(files, words),
        ChangeName::Access => bare(words, Change::Access),
    }
}

/// `exec NAME`
#[tactic(auto, unfolding(crate::specs::Changes::exec_of))]
fn exec_of(files: &DeclaredFiles, words: &[&[u8]]) -> Result<Change, Reason>
    ensures { Says (λ change. change) result (spec.exec_of files.now (nows words.now)) }
{
    match words {
        [name] => Ok(Change::Exec {
            file: file_at(files, name)?,
        }),
        _ => Err(Reason::Count),
    }
}
