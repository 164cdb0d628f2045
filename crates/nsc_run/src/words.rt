// Reading of the command words by the program's options.
ghost use Rattle.std.specs.Prelude.{◌≡◌, ◌⊎◌, IfOk, IfErr, Some, None, true, false};
ghost use Rattle.clap.specs.Words.{app_of, found_of, kind_of, matches_of, rows_of, rule_of};
ghost use Rattle.nsc_run.specs.Commands.{RefusesForm, RefusesWords};
ghost use Rattle.nsc_run.specs.Forms.{command_app, errand_app, flag, form_of, is_command, lettered, service_app, texts, valued};
ghost use Rattle.nsc_run.specs.Shown.{CanRun, shown};
ghost use Rattle.nsc_run.specs.Exits.{error_exit};

use crate::form::{Form, Options};
use clap::builder::ValueParser;
use clap::error::ErrorKind;
use clap::{Arg, ArgAction, ArgMatches, Command, Error};
use nsc_model::Exit;
use std::alloc::{AllocError, Global};

/// Reads the command words. Words that have no form are `Usage`.
pub fn read_words<'a>(alloc: Global, words: &'a [String]) -> Result<Form<'a>, Exit>
    ensures ok { IfOk result (λ form. form_of (texts words.entry.now) ≡ Some (shown form)) }
    ensures runs { IfOk result CanRun }
    ensures err { IfErr result (λ exit. RefusesForm (form_of (texts words.entry.now)) exit) }
{
    match Options::of(&parsed(alloc, words)?).form() {
        Some(form) => Ok(form),
        None => Err(Exit::Usage),
    }
}

// The matches of the program's command.
fn parsed<'a>(alloc: Global, words: &'a [String]) -> Result<ArgMatches<'a>, Exit>
    ensures command { IfOk result (λ m. is_command (texts words.entry.now) ≡ true) }
    ensures matches { IfOk result (λ m. rows_of (found_of m) ≡ matches_of command_app (texts words.entry.now)) }
    ensures err { IfErr result (λ exit. RefusesWords (is_command (texts words.entry.now)) exit) }
{
    match command(alloc)?.try_get_matches_from(words) {
        Ok(matches) => Ok(matches),
        Err(error) => Err(refusal(&error)),
    }
}

// The exit where the words are refused.
fn refusal(error: &Error) -> Exit
    ensures { result ≡ error_exit (kind_of error.now) }
{
    match error.kind() {
        ErrorKind::OutOfMemory => Exit::NoMemory,
        _ => Exit::Usage,
    }
}

// The program's command.
fn command<'a>(alloc: Global) -> Result<Command<'a>, AllocError>
    ensures { IfOk result (λ c. app_of c ≡ command_app) }
{
    service(alloc)?
        .arg(valued(alloc, "found-only"))?
        .arg(valued(alloc, "leave"))
}

// The command without the options that name databases.
fn service<'a>(alloc: Global) -> Result<Command<'a>, AllocError>
    ensures { IfOk result (λ c. app_of c ≡ service_app) }
{
    errands(alloc)?
        .arg(valued(alloc, "config-file").short('f'))?
        .arg(flag(alloc, "foreground").short('F'))?
        .arg(valued(alloc, "nthreads").short('t'))?
        .arg(valued(alloc, "etc"))?
        .arg(valued(alloc, "run-dir"))?
        .arg(valued(alloc, "gate"))
}

// The command with the options alone that say what to do. No option is for help or the version.
fn errands<'a>(alloc: Global) -> Result<Command<'a>, AllocError>
    ensures { IfOk result (λ c. app_of c ≡ errand_app) }
{
    Command::new(alloc, "nscd")
        .no_binary_name(true)
        .disable_help_flag(true)
        .disable_version_flag(true)
        .arg(flag(alloc, "replay"))?
        .arg(flag(alloc, "statistics").short('g'))?
        .arg(flag(alloc, "shutdown").short('K'))?
        .arg(valued(alloc, "invalidate").short('i'))?
        .arg(valued(alloc, "workload"))
}

// An option with no value.
fn flag<'a>(alloc: Global, name: &'a str) -> Arg<'a>
    ensures rule { rule_of result ≡ flag name.entry.now }
    ensures local { result.global ≡ false }
{
    Arg::new(alloc, name).long(name).action(ArgAction::SetTrue)
}

// An option whose value is a text that is not empty.
fn valued<'a>(alloc: Global, name: &'a str) -> Arg<'a>
    ensures rule { rule_of result ≡ valued name.entry.now }
    ensures local { result.global ≡ false }
{
    Arg::new(alloc, name)
        .long(name)
        .action(ArgAction::Set)
        .value_parser(ValueParser::NonEmptyString)
}
