//! The machine of a script.
ghost use Rattle.std.specs.Prelude.{◌≡◌, length, IfOk, OnErr};
ghost use Rattle.cred_model.specs.State.{opening};
ghost use Rattle.cred_model.specs.Step.{done};
ghost use Rattle.cred_model.specs.Named.{IsEventOf};
ghost use Rattle.cred_model.specs.Like.{GivesLike};
ghost use Rattle.cred_machine.specs.Kept.{KeepsReferred};

use crate::cached::CachedState;
use cred_event::{Answer, Event};
use cred_ids::NoMemory;
use cred_script::Script;
use std::alloc::Global;
use std::marker::Model;

/// A script, and the state that some events of it led to. Contracts see both.
#[derive(Drop)]
pub struct Machine<'a> {
    script: &'a Script,
    state: CachedState,
}

impl<'a> Model for Machine<'a> {
    ghost use Rattle.cred_sound.specs.Sound.{IsSound};
    ghost use Rattle.cred_machine.specs.Machine.{Running};

    ghost Value = { Running };

    ghost view = { λ m. record { script = m.script.now; state = m.state } };

    ghost invariant = { λ m. IsSound m.state };
}

impl<'a> Machine<'a> {
    /// The machine of a script before the first event.
    ///
    /// # Errors
    ///
    /// `NoMemory` if an allocation fails.
    pub fn new(alloc: Global, script: &'a Script) -> Result<Machine<'a>, NoMemory>
        ensures script { IfOk result (λ machine. machine.script ≡ script.now) }
        ensures state { IfOk result (λ machine. machine.state ≡ opening script.now) }
    {
        Ok(Machine {
            script,
            state: CachedState::new(alloc, script)?,
        })
    }

    /// Makes one event of a line, and returns its answer. The event names only declared files and
    /// namespaces, and gives a file only a valid mode.
    ///
    /// # Errors
    ///
    /// `NoMemory` if an allocation fails: the machine is as it was.
    pub fn step(&mut self, line: u32, event: &Event) -> Result<Answer, NoMemory>
        requires { IsEventOf (length self.old.script.files) self.old.script.namespaces event.now }
        ensures script { self.new.script ≡ self.old.script }
        ensures ok { IfOk result (λ answer. GivesLike self.old.state
            (done self.old.script self.old.state line event.now) answer self.new.state) }
        ensures kept { KeepsReferred self.new.state }
        ensures err { OnErr result (self.new ≡ self.old) }
    {
        self.state.step(self.script, line, event)
    }
}
