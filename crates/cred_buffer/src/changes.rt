//! The entries of a change: a credential is prepared, changed, and committed or given up.
ghost use Rattle.std.specs.Prelude.{◌≡◌, ◌++◌, OnOk};
ghost use Rattle.cred_report.specs.Text.{entry_text};

use crate::answers::{write_kept, write_previous, write_sealed};
use crate::buffer::ReportBuffer;
use crate::events::{write_alteration, write_label, write_preparation};
use cred_event::{Answer, Change, Event};
use cred_ids::NoMemory;
use cred_script::Script;

impl ReportBuffer {
    /// Writes the entry of the preparation of a new credential for a task, based on the one that
    /// `hold` holds.
    ///
    /// # Errors
    ///
    /// `NoMemory` where the buffer cannot grow: nothing is said of what it holds then.
    pub fn write_prepare(
        &mut self,
        script: &Script,
        line: u32,
        label: u32,
        task: u32,
        hold: u32,
        answer: Answer,
    ) -> Result<(), NoMemory>
        ensures { OnOk result (self.new ≡ self.old ++ entry_text script.now (record {
          line = line;
          event = Event.Prepare label task hold;
          answer = answer;
        })) }
    {
        match answer {
            Answer::Kept { slot } => {
                write_preparation(&mut self.pen, line, label, task, hold)?;
                write_kept(&mut self.pen, slot);
                Ok(())
            }
            _ => self.write_rare(script, line, Event::Prepare { label, task, hold }, answer),
        }
    }

    /// Writes the entry of the change of a prepared credential.
    ///
    /// # Errors
    ///
    /// `NoMemory` where the buffer cannot grow: nothing is said of what it holds then.
    pub fn write_alter(
        &mut self,
        script: &Script,
        line: u32,
        label: u32,
        change: Change,
        answer: Answer,
    ) -> Result<(), NoMemory>
        ensures { OnOk result (self.new ≡ self.old ++ entry_text script.now (record {
          line = line;
          event = Event.Alter label change;
          answer = answer;
        })) }
    {
        match answer {
            Answer::Done => {
                write_alteration(&mut self.pen, script, line, label, change)?;
                self.pen.word(" -> ok\n");
                Ok(())
            }
            Answer::Was { previous } => {
                write_alteration(&mut self.pen, script, line, label, change)?;
                write_previous(&mut self.pen, previous);
                Ok(())
            }
            Answer::Eperm => {
                write_alteration(&mut self.pen, script, line, label, change)?;
                self.pen.word(" -> eperm\n");
                Ok(())
            }
            _ => self.write_rare(script, line, Event::Alter { label, change }, answer),
        }
    }

    /// Writes the entry of the commit of a prepared credential.
    ///
    /// # Errors
    ///
    /// `NoMemory` where the buffer cannot grow: nothing is said of what it holds then.
    pub fn write_commit(
        &mut self,
        script: &Script,
        line: u32,
        label: u32,
        answer: Answer,
    ) -> Result<(), NoMemory>
        ensures { OnOk result (self.new ≡ self.old ++ entry_text script.now (record {
          line = line;
          event = Event.Commit label;
          answer = answer;
        })) }
    {
        match answer {
            Answer::Sealed { cred, slot } => {
                self.pen.start(line)?;
                write_label(&mut self.pen, " commit h", label);
                write_sealed(&mut self.pen, cred, slot);
                Ok(())
            }
            _ => self.write_rare(script, line, Event::Commit { label }, answer),
        }
    }

    /// Writes the entry of a prepared credential that is given up.
    ///
    /// # Errors
    ///
    /// `NoMemory` where the buffer cannot grow: nothing is said of what it holds then.
    pub fn write_abort(
        &mut self,
        script: &Script,
        line: u32,
        label: u32,
        answer: Answer,
    ) -> Result<(), NoMemory>
        ensures { OnOk result (self.new ≡ self.old ++ entry_text script.now (record {
          line = line;
          event = Event.Abort label;
          answer = answer;
        })) }
    {
        match answer {
            Answer::Done => {
                self.pen.start(line)?;
                write_label(&mut self.pen, " abort h", label);
                self.pen.word(" -> ok\n");
                Ok(())
            }
            _ => self.write_rare(script, line, Event::Abort { label }, answer),
        }
    }
}
