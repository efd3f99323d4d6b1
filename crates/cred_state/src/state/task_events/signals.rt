//! Signals (kill(2)).
ghost use Rattle.std.specs.Prelude.{◌≡◌};
ghost use Rattle.cred_model.specs.Like.{Gives};
ghost use Rattle.cred_model.specs.TaskEvents.{by_signal};
ghost use Rattle.cred_sound.specs.Sound.{IsSound};
ghost use Rattle.cred_tables.specs.Out.{AreHome, AreOut};

use crate::state::State;
use cred_event::{Answer, Event};
use cred_hold::Cells;
use cred_work::{NoPause, decide_signal};

impl State {
    /// May a task signal another? That is decided on the holds that are lent for it in this call.
    pub(crate) fn signal(
        &mut self,
        cells: &Cells,
        from: u32,
        hold: u32,
        to: u32,
        target: u32,
    ) -> Answer
        requires own { self.old.words.id ≡ cells.now }
        requires out { AreOut self.old.state self.old.words.out }
        requires home { AreHome (Event.Signal from hold to target) self.old.words.out }
        requires sound { IsSound self.old.state }
        ensures made { Gives self.old.state (by_signal self.old.state from hold to target) result
            self.new.state }
        ensures same { self.new ≡ self.old }
    {
        let Some(own) = self.held(hold) else {
            return self.enter_signal(from, hold, to, target, false);
        };
        let Some(other) = self.held(target) else {
            return self.enter_signal(from, hold, to, target, false);
        };
        let mut sender = self.lend_found(cells, hold, own);
        let mut receiver = self.lend_found(cells, target, other);
        let may = decide_signal(cells, &NoPause, &mut sender, &mut receiver);
        self.take_hold_back(cells, receiver);
        self.take_hold_back(cells, sender);
        self.enter_signal(from, hold, to, target, may)
    }
}
