//! The words of the program.

ghost use Rattle.std.specs.Prelude.{◌≡◌, ◌≢◌, ◌⊎◌, ◌↔◌, false, option_and_then, option_map, IfOk, IfErr, IsErrOf, IsOkUnless};
ghost use Rattle.clap.specs.Words.{app_of, kind_of, rule_of, subcommand_rows_of};
ghost use Rattle.ibc_script_cli.specs.Words.{AskFor, AskForNothing, IsPossible, command_by, command_in, ibcworld, relayers_of, relayers_rule};

use clap::error::ErrorKind;
use clap::{Arg, ArgAction, ArgMatches, Command as Parser, Error};
use ibc_script::Fault;
use std::alloc::Global;

/// What the words ask for.
#[derive(Clone, Copy, Debug, PartialEq, Eq)]
pub enum Command {
    /// The script is run in one thread, and each line is printed.
    Run,
    /// The script is run on chains that threads share, with so many relayers at each `relay`; what an audit finds is printed.
    Race { relayers: u8 },
}

fn fault_of(error: Error) -> Fault
    ensures bad { result ≡ Fault.BadArguments ↔ (kind_of error ≢ ErrorKind.OutOfMemory) }
    ensures memory { result ≡ Fault.NoMemory ↔ (kind_of error ≡ ErrorKind.OutOfMemory) }
{
    if error.kind() == ErrorKind::OutOfMemory {
        Fault::NoMemory
    } else {
        Fault::BadArguments
    }
}

#[tactic(auto, unfolding(crate::specs::Words::ibcworld))]
fn parser<'a>(alloc: Global) -> Result<Parser<'a>, Fault>
    ensures app { IfOk result (λ parser. app_of parser ≡ ibcworld) }
    ensures memory { IsOkUnless result Fault.NoMemory }
{
    let run = Parser::new(alloc, "run");
    let race = Parser::new(alloc, "race").arg(relayers(alloc))?;
    let parser = Parser::new(alloc, "ibcworld")
        .subcommand_required(true)
        .no_binary_name(true);
    Ok(parser.subcommand(run)?.subcommand(race)?)
}

// The argument of `race`.
fn relayers<'a>(alloc: Global) -> Arg<'a>
    ensures rule { rule_of result ≡ relayers_rule }
    ensures local { result.global ≡ false }
{
    Arg::new(alloc, "relayers")
        .long("relayers")
        .required(true)
        .action(ArgAction::Set)
}

// How many relayers a text asks for.
fn relayers_of(text: &str) -> Option<u8>
    ensures { result ≡ relayers_of text.now }
{
    match text.as_bytes() {
        [digit] if b'1' <= *digit && *digit <= b'8' => Some(*digit - b'0'),
        _ => None,
    }
}

// What a subcommand asks for, with the value of `--relayers`, if it was given one.
fn command_by(name: &str, relayers: Option<&str>) -> Option<Command>
    ensures { result ≡ command_by name.now (option_map (λ text. text.now) relayers.entry) }
{
    if name == "run" {
        return Some(Command::Run);
    }
    let relayers = relayers_of(relayers?)?;
    Some(Command::Race { relayers })
}

// What words ask for in which this was found.
fn command_of(found: &ArgMatches<'_>) -> Option<Command>
    ensures { result ≡ option_and_then command_in (subcommand_rows_of found.now) }
{
    match found.subcommand() {
        Some((name, inner)) => command_by(name, inner.get_str("relayers")),
        None => None,
    }
}

/// What the words after the program's name ask for. Faults: `BadArguments` exactly where they ask for nothing that the
/// program does, as for help; `NoMemory`.
pub fn read_words<'a>(alloc: Global, words: &'a [&'a str]) -> Result<Command, Fault>
    ensures asked { IfOk result (AskFor words.entry.now) }
    ensures relayers { IfOk result IsPossible }
    ensures bad { IsErrOf result Fault.BadArguments → AskForNothing words.entry.now }
    ensures faults { IfErr result (λ fault. (fault ≡ Fault.BadArguments) ⊎ (fault ≡ Fault.NoMemory)) }
{
    let parser = parser(alloc)?;
    match parser.try_get_matches_from(words) {
        Ok(found) => {
            let command = command_of(&found);
            drop(found);
            command.ok_or(Fault::BadArguments)
        }
        Err(error) => Err(fault_of(error)),
    }
}
