//! Which processes are dumpable.
ghost use Rattle.std.specs.Prelude.{◌≡◌, [], None, IfOk, OnOk, OnErr, if◌then◌else◌};
ghost use Rattle.std.specs.Option.{option_map};
ghost use Rattle.cred_model.specs.Dumpable.{flag_in, flagged, is_dumpable, set_flag};
ghost use Rattle.cred_model.specs.Dumpable.{with_process_flag};
ghost use Rattle.cred_model.specs.Dumpable.{flag_of_value, flags_by, renewed, without_flag};

use crate::changes::is_gain;
use cred_event::Change;
use cred_ids::{NoMemory, limits};
use cred_record::Gains;
use std::alloc::Global;
use std::marker::Model;

/// A process, and whether it is dumpable.
#[derive(Drop)]
struct ProcessFlag {
    process: u32,
    dumpable: bool,
}

impl Model for ProcessFlag {
    ghost use Rattle.cred_model.specs.State.{ProcessFlag};

    ghost Value = { ProcessFlag };

    ghost view = { λ f. record { process = f.process; dumpable = f.dumpable } };
}

impl ProcessFlag {
    /// This is the flag from now on, if it is the flag of this process.
    fn set(&mut self, process: u32, dumpable: bool)
        ensures { self.new ≡ flagged process dumpable self.old }
    {
        if self.process == process {
            self.dumpable = dumpable;
        }
    }
}

/// Whether each process is dumpable. Contracts see the list of the processes with their flags, in
/// the order in which they began.
///
/// There is room for the flags of 64 processes, as many as tasks may live. A process is searched
/// for among all of them.
#[derive(Drop)]
pub struct DumpableFlags {
    flags: Vec<ProcessFlag>,
}

impl Model for DumpableFlags {
    ghost use Rattle.std.specs.Prelude.{List};
    ghost use Rattle.cred_model.specs.State.{ProcessFlag};

    ghost Value = { List ProcessFlag };

    ghost view = { λ d. d.flags.items };
}

impl DumpableFlags {
    /// No process.
    ///
    /// # Errors
    ///
    /// `NoMemory` if the allocation of the room fails.
    pub fn new(alloc: Global) -> Result<DumpableFlags, NoMemory>
        ensures { IfOk result (λ flags. flags ≡ []) }
    {
        Ok(DumpableFlags {
            flags: Vec::with_capacity(alloc, limits::TASKS)?,
        })
    }

    /// A process begins, and is dumpable or isn't.
    ///
    /// # Errors
    ///
    /// `NoMemory` if an allocation fails: the flags are as they were.
    pub fn start(&mut self, process: u32, dumpable: bool) -> Result<(), NoMemory>
        requires { flag_in self.old process ≡ None }
        ensures ok { OnOk result (self.new ≡ with_process_flag self.old process dumpable) }
        ensures err { OnErr result (self.new ≡ self.old) }
    {
        self.flags.push(ProcessFlag { process, dumpable })?;
        Ok(())
    }

    /// A process is dumpable from now on, or isn't. Where it isn't there, nothing changes.
    pub fn set(&mut self, process: u32, dumpable: bool)
        ensures { self.new ≡ set_flag self.old process dumpable }
    {
        for flag in self.flags.iter_mut() {
            flag.set(process, dumpable);
        }
    }

    /// Whether a process is dumpable. `None` where it isn't there.
    pub fn get(&self, process: u32) -> Option<bool>
        ensures { result ≡ option_map (λ f. f.dumpable) (flag_in self.now process) }
    {
        Some(self.flag(process)?.dumpable)
    }

    /// Whether a process is dumpable. One that isn't there isn't.
    pub fn is_dumpable(&self, process: u32) -> bool
        ensures { result ≡ is_dumpable self.now process }
    {
        match self.flag(process) {
            Some(flag) => flag.dumpable,
            None => false,
        }
    }

    /// A process has ended. Where it isn't there, nothing changes.
    pub fn remove(&mut self, process: u32)
        ensures { self.new ≡ without_flag self.old process }
    {
        self.flags.retain(|flag| flag.process != process);
    }

    /// A task of the process has another credential. `ids_changed` says that an effective or a
    /// filesystem id is another one in it: then the process is no longer dumpable.
    pub fn renew(&mut self, process: u32, ids_changed: bool)
        ensures { self.new ≡ renewed self.old process ids_changed }
    {
        if ids_changed {
            self.set(process, false);
        }
    }

    /// A task of the process has committed this change. An execve makes the process dumpable again,
    /// unless an id is another one or the permitted set grows.
    pub fn commit(&mut self, change: Change, gains: &Gains, process: u32, ids_changed: bool)
        ensures { self.new ≡ flags_by change gains.now self.old process ids_changed }
    {
        match change {
            Change::Exec { .. } => self.set(process, !ids_changed && !is_gain(gains)),
            _ => self.renew(process, ids_changed),
        }
    }

    /// A thread of the process has ended. Where it has no other, the process has ended too.
    pub fn leave(&mut self, process: u32, has_other: bool)
        ensures { self.new ≡ (if has_other then self.old else without_flag self.old process) }
    {
        if !has_other {
            self.remove(process);
        }
    }

    fn flag(&self, process: u32) -> Option<&ProcessFlag>
        ensures { option_map (λ f. f.now) result ≡ flag_in self.now process }
    {
        self.flags.iter().find(|flag| flag.process == process)
    }
}

/// The flag of a value, which is 0 or 1 (prctl(2), PR_SET_DUMPABLE). `None` for another value.
pub fn flag_of_value(value: u32) -> Option<bool>
    ensures { result ≡ flag_of_value value }
{
    match value {
        0 => Some(false),
        1 => Some(true),
        _ => None,
    }
}
