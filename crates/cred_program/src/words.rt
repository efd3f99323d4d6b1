//! The words of the command line.
ghost use Rattle.std.specs.Prelude.{◌≡◌, ◌≤◌, true, length, IfOk, IfSome, OnErr};
ghost use Rattle.std.specs.List.{list_all};
ghost use Rattle.std.specs.Option.{option_map};
ghost use Rattle.cred_args.specs.Positionals.{is_plain, words_seen};
ghost use Rattle.cred_generate.specs.Generated.{CALLS};
ghost use Rattle.cred_spelling.specs.Spellings.{bytes_of, number_within};
ghost use Rattle.cred_commands.specs.Summing.{IsCount};
ghost use Rattle.cred_program.specs.Commands.{HasCount};
ghost use Rattle.cred_program.specs.Words as spec;
ghost use Rattle.cred_program.specs.Words.{command_of, text_within, texts};

use cred_args::{Positionals, parse};
use cred_generate::CALLS;
use cred_ids::NoMemory;
use cred_io::Bytes;
use cred_spelling::{Number, Spelling, bytes_of};
use std::alloc::Global;

/// What the program is to do.
#[derive(Drop, Debug)]
pub enum Command {
    /// Run a script, its lines whole and in order.
    Run,
    /// Run a script, its lanes as threads.
    Lanes,
    /// Say whether a report is its script's.
    Audit,
    /// Run the script that is made from a number, and sum it up.
    Gen(u32),
    /// Say what the bytes of a file's capability attribute say.
    Decode(Bytes),
    /// Say which bytes the attribute has that a text of file capabilities describes.
    Encode(Bytes),
    /// Say what the bytes of a record of capset(2) say.
    Capdata(Bytes),
}

/// The greatest length of a text of file capabilities.
const TEXT_LIMIT: usize = 4096;

/// The command that the words are; none for any other words. clap reads them as a command and its
/// operand.
///
/// # Errors
///
/// `NoMemory` if an allocation of the parse fails, or that of the operand. None is made where a
/// word is empty or begins with `-`.
pub fn command_of(alloc: Global, words: &[String]) -> Result<Option<Command>, NoMemory>
    ensures command { IfOk result (λ command. command ≡ command_of (texts words.now)) }
    ensures count { IfOk result (λ command. IfSome command HasCount) }
    ensures memory { OnErr result (list_all is_plain (texts words.now) ≡ true) }
{
    match parse(alloc, words)? {
        Some(given) => command_by(alloc, given),
        None => Ok(None),
    }
}

/// The command that a word is, with its operand if it has one.
fn command_by(alloc: Global, given: Positionals<'_>) -> Result<Option<Command>, NoMemory>
    ensures command { IfOk result (λ command. command ≡ spec.command_by (words_seen given.entry)) }
    ensures count { IfOk result (λ command. IfSome command HasCount) }
    ensures memory { OnErr result (spec.needs_memory_by (words_seen given.entry) ≡ true) }
{
    match given.operand {
        Some(operand) => with_operand(alloc, given.command, operand.as_bytes()),
        None => Ok(alone(given.command)),
    }
}

/// The command that one word is.
fn alone(word: &str) -> Option<Command>
    ensures command { result ≡ spec.alone word.now }
    ensures count { IfSome result HasCount }
{
    if word == "run" {
        Some(Command::Run)
    } else if word == "lanes" {
        Some(Command::Lanes)
    } else if word == "audit" {
        Some(Command::Audit)
    } else {
        None
    }
}

/// The command that a word is with its operand.
fn with_operand(alloc: Global, word: &str, operand: &[u8]) -> Result<Option<Command>, NoMemory>
    ensures command { IfOk result (λ command.
        command ≡ spec.with_operand word.now operand.now) }
    ensures count { IfOk result (λ command. IfSome command HasCount) }
    ensures memory { OnErr result (spec.needs_memory word.now operand.now ≡ true) }
{
    if word == "gen" {
        Ok(generated(operand))
    } else if word == "decode" {
        decoded(alloc, operand)
    } else if word == "encode" {
        encoded(alloc, operand)
    } else if word == "capdata" {
        recorded(alloc, operand)
    } else {
        Ok(None)
    }
}

/// The command `gen`; none where the operand is no number from 1 to 19,000.
fn generated(operand: &[u8]) -> Option<Command>
    ensures command { result ≡ option_map Command.Gen (number_within 1 CALLS operand.now) }
    ensures count { IfSome result HasCount }
{
    Some(Command::Gen(count_of(operand)?))
}

/// The command `decode`; none where the operand isn't bytes in hexadecimal.
fn decoded(alloc: Global, operand: &[u8]) -> Result<Option<Command>, NoMemory>
    ensures command { IfOk result (λ command.
        command ≡ option_map Command.Decode (bytes_of operand.now)) }
    ensures count { IfOk result (λ command. IfSome command HasCount) }
{
    match bytes_of(alloc, operand)? {
        Some(bytes) => Ok(Some(Command::Decode(Bytes::from_vec(bytes)))),
        None => Ok(None),
    }
}

/// The command `encode`; none where the operand is longer than a text may be.
fn encoded(alloc: Global, operand: &[u8]) -> Result<Option<Command>, NoMemory>
    ensures command { IfOk result (λ command.
        command ≡ option_map Command.Encode (text_within operand.now)) }
    ensures count { IfOk result (λ command. IfSome command HasCount) }
    ensures memory { OnErr result (length operand.now ≤ spec.TEXT_LIMIT) }
{
    if operand.len() > TEXT_LIMIT {
        return Ok(None);
    }
    Ok(Some(Command::Encode(Bytes::of(alloc, operand)?)))
}

/// The command `capdata`; none where the operand isn't bytes in hexadecimal.
fn recorded(alloc: Global, operand: &[u8]) -> Result<Option<Command>, NoMemory>
    ensures command { IfOk result (λ command.
        command ≡ option_map Command.Capdata (bytes_of operand.now)) }
    ensures count { IfOk result (λ command. IfSome command HasCount) }
{
    match bytes_of(alloc, operand)? {
        Some(bytes) => Ok(Some(Command::Capdata(Bytes::from_vec(bytes)))),
        None => Ok(None),
    }
}

/// The number that a script is made from: 1 to 19,000.
fn count_of(word: &[u8]) -> Option<u32>
    ensures number { result ≡ number_within 1 CALLS word.now }
    ensures range { IfSome result IsCount }
{
    let n = Number::of(word)?;
    if 1 <= n && n <= CALLS { Some(n) } else { None }
}
