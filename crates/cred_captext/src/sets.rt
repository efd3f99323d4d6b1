//! The three sets that a text is about.
ghost use Rattle.std.specs.Prelude.{◌≡◌};
ghost use Rattle.cred_captext.specs.Meaning as meaning;

use crate::action::{Letter, Operator};
use cred_caps::CapSet;

/// The three sets that a text is about.
#[derive(Clone, Copy, Debug)]
pub struct Sets {
    /// What the letter `e` names.
    pub effective: CapSet,
    /// What the letter `i` names.
    pub inheritable: CapSet,
    /// What the letter `p` names.
    pub permitted: CapSet,
}

impl Sets {
    /// No capability in any.
    pub fn none() -> Sets
        ensures { result ≡ meaning.none }
    {
        Sets {
            effective: CapSet::empty(),
            inheritable: CapSet::empty(),
            permitted: CapSet::empty(),
        }
    }

    /// The sets after an operator: `=` takes the listed capabilities out of all three.
    pub fn after_operator(&self, list: CapSet, operator: Operator) -> Sets
        ensures { result ≡ meaning.after_operator list operator self.now }
    {
        match operator {
            Operator::Reset => Sets {
                effective: self.effective.less(&list),
                inheritable: self.inheritable.less(&list),
                permitted: self.permitted.less(&list),
            },
            Operator::Raise | Operator::Lower => *self,
        }
    }

    /// The sets after a letter: the listed capabilities come into the one that it names, or leave
    /// it.
    pub fn after_letter(&self, list: CapSet, operator: Operator, letter: Letter) -> Sets
        ensures { result ≡ meaning.after_letter list operator self.now letter }
    {
        match letter {
            Letter::Effective => Sets {
                effective: moved(list, operator, self.effective),
                ..*self
            },
            Letter::Inheritable => Sets {
                inheritable: moved(list, operator, self.inheritable),
                ..*self
            },
            Letter::Permitted => Sets {
                permitted: moved(list, operator, self.permitted),
                ..*self
            },
        }
    }
}

/// A set with the listed capabilities, or without them.
fn moved(list: CapSet, operator: Operator, set: CapSet) -> CapSet
    ensures { result ≡ meaning.moved list operator set }
{
    match operator {
        Operator::Reset | Operator::Raise => set.union(&list),
        Operator::Lower => set.less(&list),
    }
}
