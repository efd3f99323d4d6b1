//! A script that is made from a number.
ghost use Rattle.std.specs.Prelude.{◌≡◌, ◌≤◌, ◌∷◌, ◌++◌, [], Ok, IfOk, OnOk};
ghost use Rattle.cred_model.specs.Script.{SetupFirst};
ghost use Rattle.cred_grammar.specs.Grammar.{script_of};
ghost use Rattle.cred_generate.specs.Generated as spec;
ghost use Rattle.cred_generate.specs.Generated.{CALLS, FIRST, generated};

use cred_grammar::{ScriptRefusal, read};
use cred_ids::NoMemory;
use cred_script::Script;
use std::alloc::Global;

/// How many calls a generated script may have: with its first line it has fewer lines than a script
/// may have.
pub const CALLS: u32 = 19_000;

/// The script that is made from a number: one task of root, and `n` calls of it, the same at each
/// run.
///
/// # Errors
///
/// `NoMemory` if an allocation of the text or of the script fails. No line is refused.
pub fn generate(alloc: Global, n: u32) -> Result<Script, NoMemory>
    requires { (1 ≤ n) × (n ≤ CALLS) }
    ensures script { IfOk result (λ script. script_of (spec.text_of (generated n)) ≡ Ok script) }
    ensures setup { IfOk result (λ script. SetupFirst script) }
{
    let text = text_of(alloc, n)?;
    match read(alloc, text.as_slice()) {
        Ok(script) => Ok(script),
        Err(ScriptRefusal::Memory) => Err(NoMemory),
        Err(ScriptRefusal::Bad { .. }) => unreachable!(),
    }
}

/// The text of the script.
fn text_of(alloc: Global, n: u32) -> Result<Vec<u8>, NoMemory>
    requires { n ≤ CALLS }
    ensures { IfOk result (λ text. text.items ≡ spec.text_of (generated n)) }
{
    let mut text = Vec::new(alloc);
    append_line(&mut text, first())?;
    for before in 0..n {
        append_line(&mut text, call(before + 1))?;
    }
    Ok(text)
}

/// Appends a line to the text.
fn append_line(text: &mut Vec<u8>, line: &str) -> Result<(), NoMemory>
    ensures { OnOk result (text.new.items ≡ text.old.items ++ line.now ++ 10 ∷ []) }
{
    text.extend_from_slice(line.as_bytes())?;
    text.push(b'\n')?;
    Ok(())
}

/// The line that creates the task.
fn first() -> &'static str
    ensures { result.now ≡ FIRST }
{
    "init t1 p1 0 0 n0"
}

/// The call of this number, counted from 1.
fn call(number: u32) -> &'static str
    ensures { result.now ≡ spec.call number }
{
    match number % 5 {
        1 => "t1 setresuid 0 0 0",
        2 => "t1 keepcaps 1",
        3 => "t1 capable 21",
        4 => "t1 setfsuid 1000",
        _ => "t1 ambraise 0",
    }
}
