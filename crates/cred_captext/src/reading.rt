//! A text read.
ghost use Rattle.std.specs.Prelude.{◌≡◌, IfOk, IfErr, Some};
ghost use Rattle.cred_captext.specs.Grammar.{Clauses};
ghost use Rattle.cred_captext.specs.Machine as machine;
ghost use Rattle.cred_captext.specs.Meaning.{attribute_or_mixed, sets_of_clauses};
ghost use Rattle.cred_captext.specs.Reading.{SpellsClauses, TextSays, IsRefused};
ghost use Rattle.cred_captext.specs.Stops.{StopsAt};

use crate::bytes::Reader;
use crate::refusal::TextRefusal;
use crate::sets::Sets;
use cred_filecap::FileCaps;

/// The version of an attribute that a text is written to.
const VERSION: u8 = 2;

/// The sets that a text says, or how many of its bytes some text begins with.
fn sets_in(text: &[u8]) -> Result<Sets, usize>
    ensures sets { IfOk result (λ s. machine.sets_said machine.first_reader text.now ≡ Some s) }
    ensures stops { IfErr result (λ k. StopsAt text.now k) }
{
    let mut reader = Reader::start();
    for (place, byte) in text.iter().enumerate() {
        match reader.after_byte(*byte) {
            Some(next) => reader = next,
            None => return Err(place),
        }
    }
    reader.sets_at_end().ok_or(text.len())
}

/// The attribute with these sets. Its effective set is a flag.
fn caps_of(sets: &Sets) -> Result<FileCaps, TextRefusal>
    ensures { result ≡ attribute_or_mixed sets.now }
{
    let nothing = sets.effective.bits() == 0;
    let either = sets.permitted.union(&sets.inheritable);
    if !nothing && sets.effective.bits() != either.bits() {
        return Err(TextRefusal::Mixed);
    }
    Ok(FileCaps {
        version: VERSION,
        perm: sets.permitted,
        inh: sets.inheritable,
        effective: !nothing,
        root: 0,
    })
}

/// What a text says of a file (cap_text_formats(7)): one or more clauses with one space
/// between two. A clause is a list and one or more actions. A list is `all`, or names with `cap_`
/// in lower case and a comma between two, or nothing, which means all and needs `=` as the first
/// action. An action is `=` and any number of the letters `e`, `i` and `p`, or `+` or `-` and at
/// least one of them. `=` takes the capabilities of the list out of all three sets, which start out
/// empty, and puts them into those of its letters; `+` puts them in, and `-` takes them out. The
/// attribute has version 2, and its effective flag is set exactly where the effective set is not
/// empty. It takes no memory.
///
/// # Errors
///
/// - `Bad` where the bytes are no text, with the length of the longest of their prefixes with which
///   some text begins.
/// - `Mixed` where the effective set is neither empty nor all that is permitted or inheritable.
pub fn read_text(text: &[u8]) -> Result<FileCaps, TextRefusal>
    ensures value { IfOk result (λ a. TextSays text.now a) }

    // No text is refused as none, or read as other clauses.
    ensures each_value { (t : Clauses) → SpellsClauses text.now t → result
        ≡ attribute_or_mixed (sets_of_clauses t) }
    ensures refusal { IfErr result (λ e. IsRefused text.now e) }
{
    match sets_in(text) {
        Ok(sets) => caps_of(&sets),
        Err(place) => Err(TextRefusal::Bad(place)),
    }
}
