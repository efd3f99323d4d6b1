//! The kinds of words that entries spell otherwise than scripts.
ghost use Rattle.std.specs.Prelude.{◌≡◌};
ghost use Rattle.cred_spelling.specs.Spellings.{number_of};
ghost use Rattle.cred_spelling.specs.Spellings as spelling;
ghost use Rattle.cred_reader.specs.Kinds as spec;

use cred_caps::SecureBits;
use cred_spelling::{Number, Spelling, long_of, mode_of, named};

/// The number after a letter.
fn number_after(letter: u8, word: &[u8]) -> Option<u32>
    ensures { result ≡ spec.number_after letter number_of word.now }
{
    match word {
        [first, digits @ ..] if *first == letter => Number::of(digits),
        _ => None,
    }
}

/// A task, as `t1`.
pub(crate) enum TaskWord {}

impl Spelling for TaskWord {
    type Value = u32;

    ghost spelled = { spec.task_word };

    fn of(word: &[u8]) -> Option<u32> {
        number_after(b't', word)
    }
}

/// A process, as `p1`.
pub(crate) enum ProcessWord {}

impl Spelling for ProcessWord {
    type Value = u32;

    ghost spelled = { spec.process_word };

    fn of(word: &[u8]) -> Option<u32> {
        number_after(b'p', word)
    }
}

/// A label, as `h100030`.
pub(crate) enum LabelWord {}

impl Spelling for LabelWord {
    type Value = u32;

    ghost spelled = { spec.label_word };

    fn of(word: &[u8]) -> Option<u32> {
        number_after(b'h', word)
    }
}

/// A descriptor, as `f1`.
pub(crate) enum FdWord {}

impl Spelling for FdWord {
    type Value = u32;

    ghost spelled = { spec.fd_of };

    fn of(word: &[u8]) -> Option<u32> {
        number_after(b'f', word)
    }
}

/// A slot, as `s1`.
pub(crate) enum SlotWord {}

impl Spelling for SlotWord {
    type Value = u32;

    ghost spelled = { spec.slot_word };

    fn of(word: &[u8]) -> Option<u32> {
        number_after(b's', word)
    }
}

/// A sealed credential, as `c1`.
pub(crate) enum CredWord {}

impl Spelling for CredWord {
    type Value = u64;

    ghost spelled = { spec.cred_of };

    fn of(word: &[u8]) -> Option<u64> {
        match word {
            [b'c', digits @ ..] => long_of(digits),
            _ => None,
        }
    }
}

static FLAGS: [(&str, bool); 2] = [("0", false), ("1", true)];

/// The flag that the word is.
#[tactic(auto, unfolding(crate::specs::Kinds::flags))]
fn flag_of(word: &[u8]) -> Option<bool>
    ensures { result ≡ spec.flag_of word.now }
{
    named(&FLAGS, word)
}

/// A flag, as `0` or `1`.
pub(crate) enum FlagWord {}

impl Spelling for FlagWord {
    type Value = bool;

    ghost spelled = { spec.flag_of };

    fn of(word: &[u8]) -> Option<bool> {
        flag_of(word)
    }
}

/// Securebits, as their number.
pub(crate) enum SecurebitsWord {}

impl Spelling for SecurebitsWord {
    type Value = SecureBits;

    ghost spelled = { spec.bits_of };

    fn of(word: &[u8]) -> Option<SecureBits> {
        SecureBits::new(Number::of(word)?)
    }
}

/// A file's mode, in four octal digits.
pub(crate) enum ModeWord {}

impl Spelling for ModeWord {
    type Value = u16;

    ghost spelled = { spelling.mode_of };

    fn of(word: &[u8]) -> Option<u16> {
        mode_of(word)
    }
}
