//! The command line, as clap reads it.
ghost use Rattle.std.specs.Prelude.{◌≡◌, IfOk, false, map, string_bytes, option_map};
ghost use Rattle.clap.specs.Words.{app_of, rule_of};
ghost use Rattle.hp_words.specs.Command.{app, flag, option, plain_app};
ghost use Rattle.hp_words.specs.Options.{found, texts_of};

use crate::options::{Options, options_found};
use clap::error::ErrorKind;
use clap::{Arg, ArgAction, Command};
use hp_text::NoMemory;
use std::alloc::Global;

/// An option with a value.
fn option<'a>(alloc: Global, name: &'a str) -> Arg<'a>
    ensures rule { rule_of result ≡ option name.entry.now }
    ensures local { result.global ≡ false }
{
    Arg::new(alloc, name).long(name)
}

/// An option without a value.
fn flag<'a>(alloc: Global, name: &'a str) -> Arg<'a>
    ensures rule { rule_of result ≡ flag name.entry.now }
    ensures local { result.global ≡ false }
{
    Arg::new(alloc, name).long(name).action(ArgAction::SetTrue)
}

/// The program, without options.
fn plain_command<'a>(alloc: Global) -> Command<'a>
    ensures { app_of result ≡ plain_app }
{
    Command::new(alloc, "hpar")
        .no_binary_name(true)
        .disable_help_flag(true)
        .disable_version_flag(true)
}

/// The program with its options.
fn command<'a>(alloc: Global) -> Result<Command<'a>, NoMemory>
    ensures { IfOk result (λ command. app_of command ≡ app) }
{
    plain_command(alloc)
        .arg(option(alloc, "workers"))?
        .arg(option(alloc, "chunk"))?
        .arg(option(alloc, "cuts"))?
        .arg(option(alloc, "guess"))?
        .arg(flag(alloc, "report"))?
        .arg(flag(alloc, "html"))?
        .arg(option(alloc, "select"))?
        .arg(option(alloc, "make"))?
        .arg(option(alloc, "drill"))?
        .arg(option(alloc, "bytes"))
}

/// The options that stand in the words. `None` where clap refuses the words.
pub fn find_options<'a>(alloc: Global, words: &'a [String]) -> Result<Option<Options<'a>>, NoMemory>
    ensures { IfOk result (λ options. option_map texts_of options ≡ found (map string_bytes words.entry.now)) }
{
    let command = command(alloc)?;
    match command.try_get_matches_from(words) {
        Ok(matches) => Ok(Some(options_found(&matches))),
        Err(error) => match error.kind() {
            ErrorKind::OutOfMemory => Err(NoMemory),
            _ => Ok(None),
        },
    }
}
