//! The kinds of words, each with its spelling.
ghost use Rattle.std.specs.Prelude.{◌≡◌, ℕ, List};
ghost use Rattle.std.specs.declared.option.Option.{Option};
ghost use Rattle.cred_spelling.specs.Spellings as spec;

use crate::spellings::{
    cap_named, hexadecimal_number, is, letter_number, number_of, number_within,
};
use crate::table::named;
use cred_caps::CapSet;
use cred_ids::limits::{LAST_LANE, LAST_NAMESPACE, LAST_NUMBER, LINE_LIMIT};
use cred_ids::{Arg, Id};
use cred_record::{FileKind, Want};

/// A kind of words, and what such a word spells.
pub trait Spelling {
    type Value: Copy;

    ghost spelled: { List ℕ → Option Self.Value };

    /// What the word spells, or none where it is no word of this kind.
    fn of(word: &[u8]) -> Option<Self::Value>
        ensures { result ≡ spelled word.now };
}

/// A number in decimal.
pub enum Number {}

impl Spelling for Number {
    type Value = u32;

    ghost spelled = { spec.number_of };

    fn of(word: &[u8]) -> Option<u32> {
        number_of(word)
    }
}

/// A capability, by its number or its name.
pub enum SpelledCap {}

impl Spelling for SpelledCap {
    type Value = u32;

    ghost spelled = { spec.cap_of };

    fn of(word: &[u8]) -> Option<u32> {
        if let Some(number) = number_of(word) {
            return Some(number);
        }
        cap_named(word)
    }
}

/// A task, as `t1`.
pub enum SpelledTask {}

impl Spelling for SpelledTask {
    type Value = u32;

    ghost spelled = { spec.spelled_task };

    fn of(word: &[u8]) -> Option<u32> {
        letter_number(b't', 1, LAST_NUMBER, word)
    }
}

/// A process, as `p1`.
pub enum SpelledProcess {}

impl Spelling for SpelledProcess {
    type Value = u32;

    ghost spelled = { spec.spelled_process };

    fn of(word: &[u8]) -> Option<u32> {
        letter_number(b'p', 1, LAST_NUMBER, word)
    }
}

/// A label, as `h1`.
pub enum SpelledLabel {}

impl Spelling for SpelledLabel {
    type Value = u32;

    ghost spelled = { spec.spelled_label };

    fn of(word: &[u8]) -> Option<u32> {
        letter_number(b'h', 1, LAST_NUMBER, word)
    }
}

/// The descriptor of an open file, as `f1`.
pub enum Descriptor {}

impl Spelling for Descriptor {
    type Value = u32;

    ghost spelled = { spec.descriptor_of };

    fn of(word: &[u8]) -> Option<u32> {
        letter_number(b'f', 1, LAST_NUMBER, word)
    }
}

/// A namespace, as `n0`.
pub enum SpelledNamespace {}

impl Spelling for SpelledNamespace {
    type Value = u32;

    ghost spelled = { spec.namespace_of };

    fn of(word: &[u8]) -> Option<u32> {
        letter_number(b'n', 0, LAST_NAMESPACE, word)
    }
}

/// The number of a namespace that a line declares, from 1 to 15.
pub enum NewNamespace {}

impl Spelling for NewNamespace {
    type Value = u32;

    ghost spelled = { spec.new_namespace_of };

    fn of(word: &[u8]) -> Option<u32> {
        number_within(1, LAST_NAMESPACE, word)
    }
}

/// The number of a namespace's parent, from 0 to 15.
pub enum Parent {}

impl Spelling for Parent {
    type Value = u32;

    ghost spelled = { spec.parent_of };

    fn of(word: &[u8]) -> Option<u32> {
        number_within(0, LAST_NAMESPACE, word)
    }
}

/// The number of a line, from 1 to 20,000.
pub enum LineNumber {}

impl Spelling for LineNumber {
    type Value = u32;

    ghost spelled = { spec.line_number_of };

    fn of(word: &[u8]) -> Option<u32> {
        number_within(1, LINE_LIMIT as u32, word)
    }
}

/// The number of a lane, from 1 to 16.
pub enum LaneNumber {}

impl Spelling for LaneNumber {
    type Value = u32;

    ghost spelled = { spec.lane_number_of };

    fn of(word: &[u8]) -> Option<u32> {
        number_within(1, LAST_LANE, word)
    }
}

impl Spelling for Id {
    type Value = Id;

    ghost spelled = { spec.id_of };

    fn of(word: &[u8]) -> Option<Id> {
        Id::new(number_of(word)?)
    }
}

impl Spelling for Arg {
    type Value = Arg;

    ghost spelled = { spec.arg_of };

    fn of(word: &[u8]) -> Option<Arg> {
        if is(word, "-1") {
            return Some(Arg::Keep);
        }
        Some(Arg::Set(Id::of(word)?))
    }
}

impl Spelling for CapSet {
    type Value = CapSet;

    ghost spelled = { spec.set_of };

    fn of(word: &[u8]) -> Option<CapSet> {
        if word.is_empty() || 16 < word.len() {
            return None;
        }
        CapSet::of_bits(hexadecimal_number(word)?)
    }
}

static KINDS: [(&str, FileKind); 2] = [("reg", FileKind::Regular), ("dir", FileKind::Directory)];

impl Spelling for FileKind {
    type Value = FileKind;

    ghost spelled = { spec.kind_of };

    #[tactic(auto, unfolding(crate::specs::Spellings::kinds))]
    fn of(word: &[u8]) -> Option<FileKind> {
        named(&KINDS, word)
    }
}

static WANTS: [(&str, Want); 7] = [
    (
        "r",
        Want {
            r: true,
            w: false,
            x: false,
        },
    ),
    (
        "w",
        Want {
            r: false,
            w: true,
            x: false,
        },
    ),
    (
        "x",
        Want {
            r: false,
            w: false,
            x: true,
        },
    ),
    (
        "rw",
        Want {
            r: true,
            w: true,
            x: false,
        },
    ),
    (
        "rx",
        Want {
            r: true,
            w: false,
            x: true,
        },
    ),
    (
        "wx",
        Want {
            r: false,
            w: true,
            x: true,
        },
    ),
    (
        "rwx",
        Want {
            r: true,
            w: true,
            x: true,
        },
    ),
];

impl Spelling for Want {
    type Value = Want;

    ghost spelled = { spec.want_of };

    #[tactic(auto, unfolding(crate::specs::Spellings::wants))]
    fn of(word: &[u8]) -> Option<Want> {
        named(&WANTS, word)
    }
}
