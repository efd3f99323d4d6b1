//! What was lent comes back.
ghost use Rattle.std.specs.Prelude.{◌≡◌, None, Some, slice_set};
ghost use Rattle.cred_model.specs.Like.{IsLike};
ghost use Rattle.cred_model.specs.Moves.{altered};
ghost use Rattle.cred_model.specs.Slots.{kept};
ghost use Rattle.cred_sound.specs.SlotUse.{slot_use};
ghost use Rattle.cred_sound.specs.Sound.{IsSound};
ghost use Rattle.cred_words.specs.Lists.{IsTaken};
ghost use Rattle.cred_hold.specs.Tokens.{loan};
ghost use Rattle.cred_tables.specs.Kept.{creds_in};
ghost use Rattle.cred_tables.specs.Out.{AreOut};
ghost use Rattle.cred_state.specs.TokensOut.{earlier_of, HoldsApart};

use crate::state::State;
use cred_hold::{Cells, HoldToken, Writer, discard, put};
use cred_tables::{Changed, Preparation};

impl State {
    /// Takes back a hold.
    pub(crate) fn take_hold_back(&mut self, cells: &Cells, hold: HoldToken)
        requires own { (self.old.words.id ≡ cells.now) × (hold.id ≡ cells.now) }
        requires apart { HoldsApart (kept self.old.state) self.old.words.out }
        ensures state { self.new.state ≡ self.old.state }
        ensures places { self.new.places ≡ self.old.places }
        ensures id { self.new.words.id ≡ self.old.words.id }
        ensures taken { IsTaken self.old.words.out
            (loan hold.label hold.slot (Some hold.cred)) self.new.words.out }
    {
        self.master.give_back(cells, hold);
    }

    /// Takes back the writer of the slot that the label keeps. What it has put was made by this
    /// change, which is the label's last from now on.
    // Inlined: a call would move what it takes or gives, which is large.
    #[inline(always)]
    pub(crate) fn change_to(&mut self, cells: &Cells, label: u32, to: Changed, writer: Writer)
        requires own { (self.old.words.id ≡ cells.now) × (writer.id ≡ cells.now) }
        requires label { writer.label ≡ label }
        requires put { writer.put ≡ Some to.cred }
        requires sound { IsSound self.old.state }
        requires out { AreOut self.old.state self.old.words.out }
        ensures like { IsLike self.new.state (altered self.old.state label to) }
        ensures id { self.new.words.id ≡ self.old.words.id }
        ensures taken { IsTaken self.old.words.out (loan writer.label writer.slot None)
            self.new.words.out }
    {
        self.prepared.change(label, to);
        self.master.take_back(cells, writer);
    }

    /// Takes back the writer of the slot that the label keeps. Whatever it has put, in the words of
    /// the slot is what an earlier change has made, or nothing where there was none.
    pub(crate) fn put_earlier(&mut self, cells: &Cells, label: u32, writer: Writer)
        requires own { (self.old.words.id ≡ cells.now) × (writer.id ≡ cells.now) }
        requires label { writer.label ≡ label }
        requires sound { IsSound self.old.state }
        requires out { AreOut self.old.state self.old.words.out }
        ensures like { IsLike self.new.state self.old.state }
        ensures state { self.new.state ≡ record self.old.state {
          creds = creds_in self.new.places (slot_use self.old.state).slots;
        } }
        ensures places { self.new.places
            ≡ slice_set self.old.places writer.slot (earlier_of self.old.state label) }
        ensures id { self.new.words.id ≡ self.old.words.id }
        ensures taken { IsTaken self.old.words.out (loan writer.label writer.slot None)
            self.new.words.out }
    {
        let mut writer = writer;
        self.put_again(cells, label, &mut writer);
        self.master.take_back(cells, writer);
    }

    /// Puts what an earlier change of the label has made, or nothing where there was none.
    fn put_again(&self, cells: &Cells, label: u32, writer: &mut Writer)
        requires own { writer.old.id ≡ cells.now }
        ensures put { writer.new ≡ record writer.old { put = earlier_of self.now.state label } }
    {
        match self.prepared.get(label) {
            Some(
                Preparation {
                    changed: Some(last),
                    ..
                },
            ) => put(cells, writer, &last.cred),
            _ => discard(writer),
        }
    }
}
