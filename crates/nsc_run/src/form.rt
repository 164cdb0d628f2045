// `Form`: what the command words ask for, made from the options among the words.
ghost use Rattle.std.specs.Prelude.{◌≡◌, ◌<◌, ◌≤◌, IfSome, option_map, unwrap_or};
ghost use Rattle.nsc_run.specs.Forms.{ask_form, daemon_form, form_with, has_flag, is_no_service, number_below, options_of, replay_form, run_dir_of, workers_of, workload_form};
ghost use Rattle.nsc_run.specs.Shown.{CanRun, shown};
ghost use Rattle.clap.specs.Words.{first_of, found_of, rows_of};

use crate::lists::scopes_of;
use clap::ArgMatches;
use nsc_base::decimal;
use nsc_control::AdminAsk;
use nsc_model::Db;
use nsc_server::Scopes;
use std::marker::Model;

// The folder of the sockets where no other is named.
const RUN_DIR: &str = "/var/run/nscd";

// How many workers a workload has where no number of them is said.
const WORKLOAD_WORKERS: u32 = 4;

/// How a daemon is to run.
#[derive(Clone, Copy, Debug)]
pub struct DaemonOptions<'a> {
    /// The path of the configuration file, where one is named.
    pub config: Option<&'a str>,
    /// How many threads serve connections, 1 to 64, where that is said.
    pub workers: Option<u32>,
    /// The folder of the source files, where one is named.
    pub etc: Option<&'a str>,
    /// The folder of the sockets.
    pub run_dir: &'a str,
    /// The path of the gate, where there is to be one.
    pub gate: Option<&'a str>,
    /// Which lookups of each database are answered.
    pub scopes: Scopes,
}

/// What the words ask for.
#[derive(Clone, Copy, Debug)]
pub enum Form<'a> {
    /// To replay the input.
    Replay {
        /// The path of the configuration file, where one is named.
        config: Option<&'a str>,
    },
    /// To ask something of a daemon.
    Ask {
        /// What is asked.
        ask: AdminAsk,
        /// The folder of its sockets.
        run_dir: &'a str,
    },
    /// To run a workload.
    Workload {
        /// The number that it is made from, 1 to 1,000.
        number: u32,
        /// How many threads look up, 1 to 64.
        workers: u32,
    },
    /// To be the daemon.
    Daemon {
        /// How.
        service: DaemonOptions<'a>,
    },
}

/// The options that occur, and their values.
#[derive(Drop)]
pub struct Options<'a> {
    replay: bool,
    statistics: bool,
    shutdown: bool,
    invalidate: Option<&'a str>,
    workload: Option<&'a str>,
    config: Option<&'a str>,
    foreground: bool,
    threads: Option<&'a str>,
    etc: Option<&'a str>,
    run_dir: Option<&'a str>,
    gate: Option<&'a str>,
    found_only: Option<&'a str>,
    leave: Option<&'a str>,
}

impl<'a> Model for Options<'a> {
    ghost use Rattle.std.specs.Prelude.{option_map};
    ghost use Rattle.nsc_run.specs.Forms.{Options};

    ghost Value = { Options };

    ghost view = { λ o. record {
      replay = o.replay;
      statistics = o.statistics;
      shutdown = o.shutdown;
      invalidate = option_map (λ p. p.now) o.invalidate;
      workload = option_map (λ p. p.now) o.workload;
      config = option_map (λ p. p.now) o.config;
      foreground = o.foreground;
      threads = option_map (λ p. p.now) o.threads;
      etc = option_map (λ p. p.now) o.etc;
      run_dir = option_map (λ p. p.now) o.run_dir;
      gate = option_map (λ p. p.now) o.gate;
      found_only = option_map (λ p. p.now) o.found_only;
      leave = option_map (λ p. p.now) o.leave;
    } };
}

impl<'a> Options<'a> {
    /// The options among the matches.
    pub fn of(matches: &ArgMatches<'a>) -> Options<'a>
        ensures { result ≡ options_of (rows_of (found_of matches.now)) }
    {
        Options {
            replay: has_flag(matches, "replay"),
            statistics: has_flag(matches, "statistics"),
            shutdown: has_flag(matches, "shutdown"),
            invalidate: value(matches, "invalidate"),
            workload: value(matches, "workload"),
            config: value(matches, "config-file"),
            foreground: has_flag(matches, "foreground"),
            threads: value(matches, "nthreads"),
            etc: value(matches, "etc"),
            run_dir: value(matches, "run-dir"),
            gate: value(matches, "gate"),
            found_only: value(matches, "found-only"),
            leave: value(matches, "leave"),
        }
    }

    /// The form that they make, if any: at most one of five says what to do.
    pub fn form(&self) -> Option<Form<'a>>
        ensures form { option_map shown result ≡ form_with self.now }
        ensures runs { IfSome result CanRun }
    {
        match (
            self.replay,
            self.statistics,
            self.shutdown,
            self.invalidate,
            self.workload,
        ) {
            (true, false, false, None, None) => self.replay_form(),
            (false, true, false, None, None) => self.ask_form(AdminAsk::Stat),
            (false, false, true, None, None) => self.ask_form(AdminAsk::Shutdown),
            (false, false, false, Some(name), None) => self.ask_form(AdminAsk::Invalidate {
                db: Db::named(name.as_bytes())?,
            }),
            (false, false, false, None, Some(text)) => self.workload_form(text),
            (false, false, false, None, None) => self.daemon_form(),
            _ => None,
        }
    }

    fn replay_form(&self) -> Option<Form<'a>>
        ensures form { option_map shown result ≡ replay_form self.now }
        ensures runs { IfSome result CanRun }
    {
        if self.is_no_service() && self.run_dir.is_none() {
            Some(Form::Replay {
                config: self.config,
            })
        } else {
            None
        }
    }

    fn ask_form(&self, ask: AdminAsk) -> Option<Form<'a>>
        ensures form { option_map shown result ≡ ask_form ask self.now }
        ensures runs { IfSome result CanRun }
    {
        if self.is_no_service() && self.config.is_none() {
            Some(Form::Ask {
                ask,
                run_dir: self.run_dir(),
            })
        } else {
            None
        }
    }

    fn workload_form(&self, text: &str) -> Option<Form<'a>>
        ensures form { option_map shown result ≡ workload_form text.now self.now }
        ensures runs { IfSome result CanRun }
    {
        if self.foreground || self.config.is_some() {
            return None;
        }
        if self.gate.is_some() || self.found_only.is_some() || self.leave.is_some() {
            return None;
        }
        if self.etc.is_some() || self.run_dir.is_some() {
            return None;
        }
        let number = number_below(1001, text)?;
        let workers = self.workers()?;
        Some(Form::Workload {
            number,
            workers: workers.unwrap_or(WORKLOAD_WORKERS),
        })
    }

    fn daemon_form(&self) -> Option<Form<'a>>
        ensures form { option_map shown result ≡ daemon_form self.now }
        ensures runs { IfSome result CanRun }
    {
        Some(Form::Daemon {
            service: DaemonOptions {
                config: self.config,
                workers: self.workers()?,
                etc: self.etc,
                run_dir: self.run_dir(),
                gate: self.gate,
                scopes: scopes_of(self.found_only, self.leave)?,
            },
        })
    }

    // The number of workers, where one is said. `None` where what is said is no such number.
    fn workers(&self) -> Option<Option<u32>>
        ensures workers { result ≡ workers_of self.now.threads }
        ensures range { IfSome result (λ said. IfSome said (λ n. (0 < n) × (n ≤ 64))) }
    {
        match self.threads {
            Some(text) => Some(Some(number_below(65, text)?)),
            None => Some(None),
        }
    }

    // Whether no option occurs that is the daemon's alone.
    fn is_no_service(&self) -> bool
        ensures { result ≡ is_no_service self.now }
    {
        !self.foreground
            && self.threads.is_none()
            && self.etc.is_none()
            && self.gate.is_none()
            && self.found_only.is_none()
            && self.leave.is_none()
    }

    // The folder of the sockets.
    fn run_dir(&self) -> &'a str
        ensures { result.now ≡ run_dir_of self.now.run_dir }
    {
        self.run_dir.unwrap_or(RUN_DIR)
    }
}

// A decimal number above 0 and below a limit.
fn number_below(limit: u32, text: &str) -> Option<u32>
    ensures number { result ≡ number_below limit text.now }
    ensures range { IfSome result (λ n. (0 < n) × (n < limit)) }
{
    let number = decimal(text.as_bytes())?;
    if number > 0 && number < limit {
        Some(number)
    } else {
        None
    }
}

// Whether a flag is among the matches.
fn has_flag(matches: &ArgMatches<'_>, name: &str) -> bool
    ensures { result ≡ has_flag name.now (rows_of (found_of matches.now)) }
{
    match value(matches, name) {
        Some(text) => text == "true",
        None => false,
    }
}

// The first value of an option.
fn value<'a>(matches: &ArgMatches<'a>, name: &str) -> Option<&'a str>
    ensures { option_map (λ s. s.now) result ≡ first_of name.now (rows_of (found_of matches.now)) }
{
    matches.get_str(name)
}
