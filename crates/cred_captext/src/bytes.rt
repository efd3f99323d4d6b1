//! A reader of texts, by what it has read.
ghost use Rattle.std.specs.Prelude.{◌≡◌, ◌∷◌, ◌++◌, []};
ghost use Rattle.cred_captext.specs.Machine as machine;

use crate::action::{Letter, Operator};
use crate::prefix::Prefix;
use crate::sets::Sets;
use cred_caps::CapSet;

/// Where in a text a reader stands.
#[derive(Drop, Debug)]
pub enum TextPlace {
    /// Before a clause.
    Start,
    /// After the `a` of the word `all`.
    A,
    /// After its `al`.
    Al,
    /// After the word.
    All,
    /// Within a name, after one, or after a comma, where a name begins.
    Name(Prefix),
    /// After an operator that needs a letter.
    Sign(Operator),
    /// After an operator and its letters. Here a text may end.
    Letters(Operator),
}

/// A reader of texts, by what it has read.
#[derive(Drop, Debug)]
pub struct Reader {
    /// The three sets, as far as actions are read.
    pub sets: Sets,
    /// The list of the clause, as far as it is read.
    pub list: CapSet,
    /// Where it stands.
    pub place: TextPlace,
}

impl Reader {
    /// Before the first byte.
    pub fn start() -> Reader
        ensures { result ≡ machine.first_reader }
    {
        Reader {
            sets: Sets::none(),
            list: CapSet::empty(),
            place: TextPlace::Start,
        }
    }

    /// The sets, where a text may end.
    pub fn sets_at_end(&self) -> Option<Sets>
        ensures { result ≡ machine.sets_at_end self.now }
    {
        match self.place {
            TextPlace::Letters(_) => Some(self.sets),
            _ => None,
        }
    }

    /// The reader after one more byte. `None` where no text goes on so.
    pub fn after_byte(&self, byte: u8) -> Option<Reader>
        ensures { result ≡ machine.after_byte self.now byte }
    {
        match &self.place {
            TextPlace::Start => self.before_clause(byte),
            TextPlace::A => self.word(byte, TextPlace::Al),
            TextPlace::Al => self.word(byte, TextPlace::All),
            TextPlace::All => self.operated(CapSet::full(), byte),
            TextPlace::Name(prefix) => self.within_name(prefix, byte),
            TextPlace::Sign(operator) => self.lettered(*operator, byte),
            TextPlace::Letters(operator) => self.letter_or_operator(*operator, byte),
        }
    }

    /// Before a clause: the word `all`, a name, or `=` for all.
    fn before_clause(&self, byte: u8) -> Option<Reader>
        ensures { result ≡ machine.step_at self.now.sets self.now.list TextPlace.Start byte }
    {
        match byte {
            b'a' => Some(Reader {
                sets: self.sets,
                list: CapSet::full(),
                place: TextPlace::A,
            }),
            b'=' => self.operated(CapSet::full(), byte),
            _ => self.longer_name(CapSet::empty(), &Prefix::none(), byte),
        }
    }

    /// Within the word `all`.
    fn word(&self, byte: u8, place: TextPlace) -> Option<Reader>
        ensures { result ≡ machine.word self.now.sets place byte }
    {
        if byte != b'l' {
            return None;
        }
        Some(Reader {
            sets: self.sets,
            list: CapSet::full(),
            place,
        })
    }

    /// After a list: an operator.
    fn operated(&self, list: CapSet, byte: u8) -> Option<Reader>
        ensures { result ≡ machine.operated self.now.sets list byte }
    {
        let operator = Operator::of(byte)?;
        Some(Reader {
            sets: self.sets.after_operator(list, operator),
            list,
            place: place_after(operator),
        })
    }

    /// Within a name: a byte more, or where it is whole a comma or an operator.
    fn within_name(&self, prefix: &Prefix, byte: u8) -> Option<Reader>
        ensures { result
            ≡ machine.step_at self.now.sets self.now.list (TextPlace.Name prefix.now) byte }
    {
        match prefix.cap() {
            Some(cap) => self.separated(self.list.with(cap), byte),
            None => self.longer_name(self.list, prefix, byte),
        }
    }

    /// After a name: a comma or an operator.
    fn separated(&self, list: CapSet, byte: u8) -> Option<Reader>
        ensures { result ≡ machine.separated self.now.sets list byte }
    {
        if byte == b',' {
            return Some(Reader {
                sets: self.sets,
                list,
                place: TextPlace::Name(Prefix::none()),
            });
        }
        self.operated(list, byte)
    }

    /// One more byte of a name.
    fn longer_name(&self, list: CapSet, prefix: &Prefix, byte: u8) -> Option<Reader>
        ensures { result ≡ machine.longer_name self.now.sets list (prefix.now ++ byte ∷ []) }
    {
        let prefix = prefix.longer(byte)?;
        Some(Reader {
            sets: self.sets,
            list,
            place: TextPlace::Name(prefix),
        })
    }

    /// After an operator: a letter.
    fn lettered(&self, operator: Operator, byte: u8) -> Option<Reader>
        ensures { result ≡ machine.lettered self.now.sets self.now.list operator byte }
    {
        let letter = Letter::of(byte)?;
        Some(Reader {
            sets: self.sets.after_letter(self.list, operator, letter),
            list: self.list,
            place: TextPlace::Letters(operator),
        })
    }

    /// After an action, or within one: another letter, another action, or another clause.
    fn letter_or_operator(&self, operator: Operator, byte: u8) -> Option<Reader>
        ensures { result
            ≡ machine.step_at self.now.sets self.now.list (TextPlace.Letters operator) byte }
    {
        match byte {
            b' ' => Some(Reader {
                sets: self.sets,
                list: CapSet::empty(),
                place: TextPlace::Start,
            }),
            b'=' | b'+' | b'-' => self.operated(self.list, byte),
            _ => self.lettered(operator, byte),
        }
    }
}

/// After an operator: `=` needs no letter.
fn place_after(operator: Operator) -> TextPlace
    ensures { result ≡ machine.place_after operator }
{
    match operator {
        Operator::Reset => TextPlace::Letters(operator),
        Operator::Raise | Operator::Lower => TextPlace::Sign(operator),
    }
}
