//! The entries of labels that hold a credential: take, ask and release.
ghost use Rattle.std.specs.Prelude.{◌≡◌, ◌++◌, OnOk};
ghost use Rattle.cred_report.specs.Text.{entry_text};

use crate::answers::{write_caps, write_flag, write_ids, write_sealed};
use crate::buffer::ReportBuffer;
use crate::calls::write_number;
use crate::events::{write_label, write_question};
use cred_event::{Answer, Event, Query, Side, Told};
use cred_ids::NoMemory;
use cred_script::Script;

impl ReportBuffer {
    /// Writes the entry of the taking of a task's subjective credential.
    ///
    /// # Errors
    ///
    /// `NoMemory` where the buffer cannot grow: nothing is said of what it holds then.
    pub fn write_take(
        &mut self,
        script: &Script,
        line: u32,
        label: u32,
        task: u32,
        answer: Answer,
    ) -> Result<(), NoMemory>
        ensures { OnOk result (self.new ≡ self.old ++ entry_text script.now (record {
          line = line;
          event = Event.Take label task Side.Subjective;
          answer = answer;
        })) }
    {
        match answer {
            Answer::Sealed { cred, slot } => {
                self.pen.start(line)?;
                write_label(&mut self.pen, " take h", label);
                write_number(&mut self.pen, " t", task);
                write_sealed(&mut self.pen, cred, slot);
                Ok(())
            }
            _ => self.write_rare(
                script,
                line,
                Event::Take {
                    label,
                    task,
                    side: Side::Subjective,
                },
                answer,
            ),
        }
    }

    /// Writes the entry of the release of a label.
    ///
    /// # Errors
    ///
    /// `NoMemory` where the buffer cannot grow: nothing is said of what it holds then.
    pub fn write_release(
        &mut self,
        script: &Script,
        line: u32,
        label: u32,
        answer: Answer,
    ) -> Result<(), NoMemory>
        ensures { OnOk result (self.new ≡ self.old ++ entry_text script.now (record {
          line = line;
          event = Event.Release label;
          answer = answer;
        })) }
    {
        match answer {
            Answer::Done => {
                self.pen.start(line)?;
                write_label(&mut self.pen, " drop h", label);
                self.pen.word(" -> ok\n");
                Ok(())
            }
            _ => self.write_rare(script, line, Event::Release { label }, answer),
        }
    }

    /// Writes the entry of a question on the credential that a label holds.
    ///
    /// # Errors
    ///
    /// `NoMemory` where the buffer cannot grow: nothing is said of what it holds then.
    pub fn write_ask(
        &mut self,
        script: &Script,
        line: u32,
        label: u32,
        query: Query,
        answer: Answer,
    ) -> Result<(), NoMemory>
        ensures { OnOk result (self.new ≡ self.old ++ entry_text script.now (record {
          line = line;
          event = Event.Ask label query;
          answer = answer;
        })) }
    {
        match answer {
            Answer::Done => {
                write_question(&mut self.pen, script, line, label, query)?;
                self.pen.word(" -> ok\n");
                Ok(())
            }
            Answer::Eacces => {
                write_question(&mut self.pen, script, line, label, query)?;
                self.pen.word(" -> eacces\n");
                Ok(())
            }
            _ => self.write_told(script, line, label, query, answer),
        }
    }

    /// The same, where the answer is neither of these.
    #[inline(always)]
    fn write_told(
        &mut self,
        script: &Script,
        line: u32,
        label: u32,
        query: Query,
        answer: Answer,
    ) -> Result<(), NoMemory>
        ensures { OnOk result (self.new ≡ self.old ++ entry_text script.now (record {
          line = line;
          event = Event.Ask label query;
          answer = answer;
        })) }
    {
        match &answer {
            Answer::Told(Told::Flag(flag)) => {
                write_question(&mut self.pen, script, line, label, query)?;
                write_flag(&mut self.pen, *flag);
                Ok(())
            }
            Answer::Told(Told::Ids { uid, gid }) => {
                write_question(&mut self.pen, script, line, label, query)?;
                write_ids(&mut self.pen, *uid, *gid);
                Ok(())
            }
            Answer::Told(
                Told::Caps {
                    perm,
                    inh,
                    eff,
                    bound,
                    amb,
                },
            ) => {
                write_question(&mut self.pen, script, line, label, query)?;
                write_caps(&mut self.pen, *perm, *inh, *eff, *bound, *amb)
            }
            _ => self.write_rare(script, line, Event::Ask { label, query }, answer),
        }
    }
}
