//! The actions of a clause.
ghost use Rattle.std.specs.Prelude.{◌≡◌};
ghost use Rattle.cred_captext.specs.Machine as machine;

/// What becomes of the capabilities of a list (cap_text_formats(7)).
#[derive(Clone, Copy, Debug)]
pub enum Operator {
    /// `=`: they leave all three sets, and come into those whose letters follow.
    Reset,
    /// `+`: they come into the sets whose letters follow.
    Raise,
    /// `-`: they leave those sets.
    Lower,
}

impl Operator {
    /// The operator that a byte is.
    pub fn of(byte: u8) -> Option<Operator>
        ensures { result ≡ machine.operator_of byte }
    {
        match byte {
            b'=' => Some(Operator::Reset),
            b'+' => Some(Operator::Raise),
            b'-' => Some(Operator::Lower),
            _ => None,
        }
    }
}

/// One of the three sets.
#[derive(Clone, Copy, Debug)]
pub enum Letter {
    /// `e`.
    Effective,
    /// `i`.
    Inheritable,
    /// `p`.
    Permitted,
}

impl Letter {
    /// The set that a byte names.
    pub fn of(byte: u8) -> Option<Letter>
        ensures { result ≡ machine.letter_of byte }
    {
        match byte {
            b'e' => Some(Letter::Effective),
            b'i' => Some(Letter::Inheritable),
            b'p' => Some(Letter::Permitted),
            _ => None,
        }
    }
}
