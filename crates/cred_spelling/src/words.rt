//! The words of a line. Their number is tested before what they spell.
ghost use Rattle.std.specs.Prelude.{◌≡◌, OnOk};
ghost use Rattle.cred_spelling.specs.Read.{Says, nows};
ghost use Rattle.cred_spelling.specs.Words as spec;

use crate::kinds::Spelling;
use crate::reason::Reason;
use std::alloc::AllocError;

/// Makes `words` those of a line, which are separated by runs of spaces.
///
/// # Errors
///
/// `AllocError` if the list cannot grow: then `words` may be any.
pub fn split_into<'b>(words: &mut Vec<&'b [u8]>, line: &'b [u8]) -> Result<(), AllocError>
    ensures { OnOk result (nows words.new.items ≡ spec.line_words line.now) }
{
    words.clear();
    words.extend(
        line.split(|byte| *byte == b' ')
            .filter(|word| !word.is_empty()),
    )
}

/// Whether the word begins a comment.
pub fn is_comment(word: &[u8]) -> bool
    ensures { result ≡ spec.is_comment word.now }
{
    match word {
        [first, ..] => *first == b'#',
        [] => false,
    }
}

/// What a word of this kind spells.
///
/// # Errors
///
/// `Reason::Word` where it is no word of this kind.
pub fn word<A: Spelling>(word: &[u8]) -> Result<A::Value, Reason>
    ensures { Says (λ x. x) result (spec.word_of A.spelled word.now) }
{
    A::of(word).ok_or(Reason::Word)
}

/// There are no words.
///
/// # Errors
///
/// `Reason::Count` where there are some.
pub fn no_words(words: &[&[u8]]) -> Result<(), Reason>
    ensures { Says (λ x. x) result (spec.no_words (nows words.now)) }
{
    match words {
        [] => Ok(()),
        _ => Err(Reason::Count),
    }
}

/// The value, where no words follow.
///
/// # Errors
///
/// `Reason::Count` where there are some.
pub fn bare<T: Copy>(words: &[&[u8]], value: T) -> Result<T, Reason>
    ensures { Says (λ x. x) result (spec.bare (nows words.now) value) }
{
    no_words(words)?;
    Ok(value)
}

/// What the only word spells.
///
/// # Errors
///
/// `Reason::Count` where there are more or none, then `Reason::Word`.
pub fn one<A: Spelling>(words: &[&[u8]]) -> Result<A::Value, Reason>
    ensures { Says (λ x. x) result (spec.one_of A.spelled (nows words.now)) }
{
    match words {
        [a] => word::<A>(a),
        _ => Err(Reason::Count),
    }
}

/// What two words spell.
///
/// # Errors
///
/// `Reason::Count` where there aren't two, then `Reason::Word`.
#[tactic(auto, unfolding(crate::specs::Words::two_of))]
// Most lines come through here: a call would put what the words spell into memory and read it
// again.
#[inline(always)]
pub fn two<A: Spelling, B: Spelling>(words: &[&[u8]]) -> Result<(A::Value, B::Value), Reason>
    ensures { Says (λ x. x) result (spec.two_of A.spelled B.spelled (nows words.now)) }
{
    match words {
        [a, b] => match (A::of(a), B::of(b)) {
            (Some(x), Some(y)) => Ok((x, y)),
            _ => Err(Reason::Word),
        },
        _ => Err(Reason::Count),
    }
}

/// What three words spell.
///
/// # Errors
///
/// `Reason::Count` where there aren't three, then `Reason::Word`.
#[tactic(auto, unfolding(crate::specs::Words::three_of))]
// As `two`.
#[inline(always)]
pub fn three<A: Spelling, B: Spelling, C: Spelling>(
    words: &[&[u8]],
) -> Result<(A::Value, B::Value, C::Value), Reason>
    ensures { Says (λ x. x) result
        (spec.three_of A.spelled B.spelled C.spelled (nows words.now)) }
{
    match words {
        [a, b, c] => match (A::of(a), B::of(b), C::of(c)) {
            (Some(x), Some(y), Some(z)) => Ok((x, y, z)),
            _ => Err(Reason::Word),
        },
        _ => Err(Reason::Count),
    }
}

/// What five words spell.
///
/// # Errors
///
/// `Reason::Count` where there aren't five, then `Reason::Word`.
#[tactic(auto, unfolding(crate::specs::Words::five_of))]
pub fn five<A: Spelling, B: Spelling, C: Spelling, D: Spelling, E: Spelling>(
    words: &[&[u8]],
) -> Result<(A::Value, B::Value, C::Value, D::Value, E::Value), Reason>
    ensures { Says (λ x. x) result
        (spec.five_of A.spelled B.spelled C.spelled D.spelled E.spelled (nows words.now)) }
{
    match words {
        [a, b, c, d, e] => match (two::<A, B>(&[*a, *b]), three::<C, D, E>(&[*c, *d, *e])) {
            (Ok((v, w)), Ok((x, y, z))) => Ok((v, w, x, y, z)),
            (Err(reason), _) | (_, Err(reason)) => Err(reason),
        },
        _ => Err(Reason::Count),
    }
}
