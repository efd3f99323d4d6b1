//! Reading a script.
ghost use Rattle.std.specs.Prelude.{◌≡◌, ◌≤◌, IfOk, length};
ghost use Rattle.cred_ids.specs.Limits.{LINE_LIMIT};
ghost use Rattle.cred_model.specs.Script.{SetupFirst};
ghost use Rattle.cred_spelling.specs.Lines.{lines_of};
ghost use Rattle.cred_grammar.specs.FirstBad.{ReportsFirstBad};
ghost use Rattle.cred_grammar.specs.Grammar.{script_of};
ghost use Rattle.cred_grammar.specs.ReadAnswers.{ReadsAs};

use crate::reading::Reading;
use crate::refusal::ScriptRefusal;
use cred_script::Script;
use cred_spelling::split_first_line;
use std::alloc::Global;

/// The script that these bytes are. `line_count` says whether they are few enough lines.
///
/// # Errors
///
/// `Bad` with the first bad line and its reason, exactly where the bytes are no script; `Memory`
/// if an allocation for its words or for what it keeps fails.
pub fn read(alloc: Global, bytes: &[u8]) -> Result<Script, ScriptRefusal>
    requires few { length (lines_of bytes.now) ≤ LINE_LIMIT }
    ensures given { ReadsAs (λ script. script) result (script_of bytes.now) }
    ensures first { ReportsFirstBad (lines_of bytes.now) result }
    ensures lines { IfOk result (λ script. length script.lines ≡ length (lines_of bytes.now)) }
    ensures setup { IfOk result (λ script. SetupFirst script) }
{
    read_lines(alloc, bytes)
}

/// The script that these bytes are.
fn read_lines(alloc: Global, bytes: &[u8]) -> Result<Script, ScriptRefusal>
    requires few { length (lines_of bytes.now) ≤ LINE_LIMIT }
    ensures given { ReadsAs (λ script. script) result (script_of bytes.now) }
    ensures lines { IfOk result (λ script. length script.lines ≡ length (lines_of bytes.now)) }
    ensures setup { IfOk result (λ script. SetupFirst script) }
{
    let mut reading = Reading::nothing(alloc);
    let mut words = Vec::new(alloc);
    let mut rest = bytes;
    while !rest.is_empty() {
        let (text, after, printable) = split_first_line(&mut words, rest)?;
        reading.add_numbered(alloc, text, &words, printable)?;
        rest = after;
    }
    Ok(reading.into_script())
}
