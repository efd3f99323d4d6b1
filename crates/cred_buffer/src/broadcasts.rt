//! The entries of an id call and of the threads that follow it.
ghost use Rattle.std.specs.Prelude.{◌≡◌, ◌++◌, OnOk};
ghost use Rattle.cred_report.specs.Text.{entry_text};

use crate::answers::{write_acted, write_began};
use crate::buffer::ReportBuffer;
use crate::events::write_id_call;
use cred_event::{Answer, Event};
use cred_ids::NoMemory;
use cred_record::IdCall;
use cred_script::Script;

impl ReportBuffer {
    /// Writes the entry of a task's id call.
    ///
    /// # Errors
    ///
    /// `NoMemory` where the buffer cannot grow or the call could not be copied: nothing is said of
    /// what it holds then.
    pub fn write_begin(
        &mut self,
        script: &Script,
        line: u32,
        task: u32,
        call: &IdCall,
        answer: Answer,
    ) -> Result<(), NoMemory>
        ensures { OnOk result (self.new ≡ self.old ++ entry_text script.now (record {
          line = line;
          event = Event.Begin task call.now;
          answer = answer;
        })) }
    {
        match answer {
            Answer::Began { cred, slot, left } => {
                write_id_call(&mut self.pen, line, task, call)?;
                write_began(&mut self.pen, cred, slot, left);
                Ok(())
            }
            Answer::Eperm => {
                write_id_call(&mut self.pen, line, task, call)?;
                self.pen.word(" -> eperm\n");
                Ok(())
            }
            _ => self.write_rare(
                script,
                line,
                Event::Begin {
                    task,
                    call: call.copy()?,
                },
                answer,
            ),
        }
    }

    /// Writes the entry of the step of a thread in a broadcast.
    ///
    /// # Errors
    ///
    /// `NoMemory` where the buffer cannot grow: nothing is said of what it holds then.
    pub fn write_act(
        &mut self,
        script: &Script,
        line: u32,
        broadcast: u32,
        answer: Answer,
    ) -> Result<(), NoMemory>
        ensures { OnOk result (self.new ≡ self.old ++ entry_text script.now (record {
          line = line;
          event = Event.Act broadcast;
          answer = answer;
        })) }
    {
        match answer {
            Answer::Acted {
                task,
                cred,
                slot,
                left,
            } => {
                self.pen.start(line)?;
                self.pen.word(" act ");
                self.pen.line(broadcast);
                write_acted(&mut self.pen, task, cred, slot, left);
                Ok(())
            }
            _ => self.write_rare(script, line, Event::Act { broadcast }, answer),
        }
    }
}
