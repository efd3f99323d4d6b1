//! Reading the words by clap.
ghost use Rattle.std.specs.Prelude.{◌≡◌, true, IfOk, OnErr, map, option_map, string_bytes, codes};
ghost use Rattle.std.specs.List.{list_all};
ghost use Rattle.clap.specs.Words.{first_value, found_of};
ghost use Rattle.cred_args.specs.Line.{Finds};
ghost use Rattle.cred_args.specs.Positionals as spec;
ghost use Rattle.cred_args.specs.Positionals.{positionals, words_seen};

use clap::error::ErrorKind;
use clap::{Arg, ArgMatches, Command, Error};
use cred_ids::NoMemory;
use std::alloc::Global;

/// What the command is called among the positionals.
const COMMAND: &str = "command";

/// What its operand is called.
const OPERAND: &str = "operand";

/// A command line.
#[derive(Clone, Copy, Debug)]
pub struct Positionals<'a> {
    pub command: &'a str,
    pub operand: Option<&'a str>,
}

/// The command and the operand that the words are, which stand after the program's name; none where
/// there are none or more than two, and where one is empty or begins with `-`.
///
/// # Errors
///
/// `NoMemory` if an allocation of the parse fails, which is made only where each word is a plain
/// one.
pub fn parse<'a>(alloc: Global, words: &'a [String]) -> Result<Option<Positionals<'a>>, NoMemory>
    ensures value { IfOk result (λ given. option_map words_seen given
        ≡ positionals (map string_bytes words.now)) }
    ensures memory { OnErr result
        (list_all spec.is_plain (map string_bytes words.now) ≡ true) }
{
    // clap would take a word that begins with `-` for a flag, and `--` for the end of flags.
    if !are_plain(words) {
        return Ok(None);
    }
    match match_words(alloc, words) {
        Ok(matches) => Ok(positionals_of(&matches)),
        Err(e) => match e.kind() {
            ErrorKind::OutOfMemory => Err(NoMemory),
            _ => Ok(None),
        },
    }
}

/// No word is empty or begins with `-`.
fn are_plain(words: &[String]) -> bool
    ensures { result ≡ list_all spec.is_plain (map string_bytes words.now) }
{
    for word in words {
        if !is_plain(word.as_bytes()) {
            return false;
        }
    }
    true
}

fn is_plain(word: &[u8]) -> bool
    ensures { result ≡ spec.is_plain word.now }
{
    match word {
        [] => false,
        [first, ..] => *first != b'-',
    }
}

/// What clap finds in the words.
///
/// # Errors
///
/// What clap refuses the words by, and `OutOfMemory` if an allocation fails.
fn match_words<'a>(alloc: Global, words: &'a [String]) -> Result<ArgMatches<'a>, Error>
    ensures { Finds (map string_bytes words.now) result }
{
    let command = Arg::new(alloc, COMMAND).required(true);
    let operand = Arg::new(alloc, OPERAND);
    let line = Command::new(alloc, "credtrace")
        .no_binary_name(true)
        .disable_help_flag(true)
        .arg(command)?
        .arg(operand)?;
    line.try_get_matches_from(words)
}

/// The positionals of what clap found.
fn positionals_of<'a>(matches: &ArgMatches<'a>) -> Option<Positionals<'a>>
    ensures { option_map words_seen result
        ≡ option_map (λ command. (command, first_value (found_of matches.now) (codes "operand")))
        (first_value (found_of matches.now) (codes "command")) }
{
    let command = matches.get_str(COMMAND)?;
    Some(Positionals {
        command,
        operand: matches.get_str(OPERAND),
    })
}
