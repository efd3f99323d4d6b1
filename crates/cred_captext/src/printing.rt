//! A text written.
ghost use Rattle.std.specs.Prelude.{◌≡◌, ◌++◌, IfOk, OnOk};
ghost use Rattle.cred_captext.specs.Grammar.{clauses_text};
ghost use Rattle.cred_captext.specs.Names.{lowercase_name};
ghost use Rattle.cred_captext.specs.Printed.{printed, HasText};
ghost use Rattle.cred_captext.specs.Pieces as pieces;
ghost use Rattle.cred_captext.specs.Reading.{TextSays};

use crate::prefix::capitals;
use cred_caps::{Cap, CapSet};
use cred_filecap::FileCaps;
use cred_ids::{Bytes as Text, NoMemory};
use std::alloc::Global;

/// Appends the name of a capability, in lower case.
fn append_name(out: &mut Vec<u8>, cap: Cap) -> Result<(), NoMemory>
    ensures { OnOk result (out.new.items ≡ out.old.items ++ lowercase_name cap) }
{
    let name = capitals(cap);
    for byte in name {
        out.push(byte.to_ascii_lowercase())?;
    }
    Ok(())
}

/// Appends the name of a capability, after a comma where another name stands before it.
fn append_next(out: &mut Vec<u8>, comma: bool, cap: Cap) -> Result<(), NoMemory>
    ensures { OnOk result
        (out.new.items ≡ out.old.items ++ (pieces.comma_text comma ++ lowercase_name cap)) }
{
    if comma {
        out.push(b',')?;
    }
    append_name(out, cap)
}

/// Appends the names of the capabilities of a set in the order of their numbers, with a comma
/// between two.
fn append_names(out: &mut Vec<u8>, set: CapSet) -> Result<(), NoMemory>
    ensures { OnOk result (out.new.items ≡ out.old.items ++ pieces.names_text set) }
{
    let mut comma = false;
    for number in 0..41 {
        let cap = Cap::new(number).unwrap();
        if set.has(cap) {
            append_next(out, comma, cap)?;
            comma = true;
        }
    }
    Ok(())
}

/// Appends a space where something stands before it.
fn append_space(out: &mut Vec<u8>) -> Result<(), NoMemory>
    ensures { OnOk result (out.new.items ≡ pieces.spaced out.old.items) }
{
    if !out.is_empty() {
        out.push(b' ')?;
    }
    Ok(())
}

/// Appends `=` and letters, with `e` before them where the flag is set.
fn append_action(out: &mut Vec<u8>, effective: bool, letters: &str) -> Result<(), NoMemory>
    ensures { OnOk result
        (out.new.items ≡ out.old.items ++ pieces.action_with effective letters.now) }
{
    if effective {
        out.extend_from_slice(b"=e")?;
    } else {
        out.push(b'=')?;
    }
    Ok(out.extend_from_slice(letters.as_bytes())?)
}

/// Appends the clause of the capabilities of a set, if it has one.
fn append_clause(
    out: &mut Vec<u8>,
    set: CapSet,
    effective: bool,
    letters: &str,
) -> Result<(), NoMemory>
    ensures { OnOk result
        (out.new.items ≡ pieces.with_clause out.old.items set effective letters.now) }
{
    if set.bits() == 0 {
        return Ok(());
    }
    append_space(out)?;
    append_names(out, set)?;
    append_action(out, effective, letters)?;
    Ok(())
}

/// Appends `=` where nothing stands before it.
fn append_none(out: &mut Vec<u8>) -> Result<(), NoMemory>
    ensures { OnOk result (out.new.items ≡ pieces.or_none out.old.items) }
{
    if out.is_empty() {
        out.push(b'=')?;
    }
    Ok(())
}

/// The text of an attribute (cap_text_formats(7)): at most three clauses with one space between
/// two, of the capabilities that are permitted alone, in both sets, and inheritable alone, each in
/// the order of their numbers. A clause without capabilities is left out, and where all three are,
/// the text is `=`. A version or a root id stands in no text.
///
/// # Errors
///
/// `NoMemory` if the allocation of the text fails.
pub fn print_text(alloc: Global, caps: &FileCaps) -> Result<Text, NoMemory>
    ensures text { IfOk result (λ text. text ≡ clauses_text (printed caps.now)) }

    // What is written is read as the same attribute, where a text can say it.
    ensures read { IfOk result (λ text. HasText caps.now → TextSays text caps.now) }
{
    // `bits` shows the proof that each is a set.
    let _ = (caps.perm.bits(), caps.inh.bits());
    let mut out = Vec::new(alloc);
    append_clause(&mut out, caps.perm.less(&caps.inh), caps.effective, "p")?;
    append_clause(&mut out, caps.perm.meet(&caps.inh), caps.effective, "ip")?;
    append_clause(&mut out, caps.inh.less(&caps.perm), caps.effective, "i")?;
    append_none(&mut out)?;
    Ok(Text::from_vec(out))
}
