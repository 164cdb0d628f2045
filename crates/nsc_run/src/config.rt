// The settings of a configuration file, and the path of a daemon's nscd.conf(5).
ghost use Rattle.std.specs.Prelude.{◌≡◌, IfOk, IfErr, option_map};
ghost use Rattle.std.specs.String.{string_bytes};
ghost use Rattle.nsc_run.specs.Commands.{IsSet, NotSet, conf_path, config_told};
ghost use Rattle.nsc_run.specs.Exits.{cause_exit};

use nsc_base::NoMemory;
use nsc_daemonconf::read_conf;
use nsc_model::{Conf, Exit};
use nsc_outside::{FileSet, ReadCause};
use std::alloc::Global;

/// The settings of the configuration file at a path, and the defaults where it is absent or no path is given.
///
/// A text that is no nscd.conf(5) is `BadConf`. Where the file could not be read, the exit is `SourceFault`, and where it
/// is longer than a file may be, `TooLong`; then the set's count of faults rose. At `NoMemory` all is as before.
pub fn conf_at<F: FileSet>(alloc: Global, path: Option<&str>, files: &mut F) -> Result<Conf, Exit>
    ensures held { F.held files.new ≡ F.held files.old }
    ensures ok { IfOk result (λ conf. IsSet (config_told (F.conf_held files.old) (option_map (λ p. p.now) path.entry)) (F.faults files.old) (F.faults files.new) conf) }
    ensures err { IfErr result (λ exit. NotSet (config_told (F.conf_held files.old) (option_map (λ p. p.now) path.entry)) (F.faults files.old) (F.faults files.new) exit) }
{
    let Some(path) = path else {
        return Ok(Conf::defaults());
    };
    match files.read_conf(alloc, path) {
        Ok(None) => Ok(Conf::defaults()),
        Ok(Some(text)) => Ok(read_conf(text.as_slice())?),
        Err(cause) => Err(cause_exit(cause)),
    }
}

// The exit where a file could not be read.
fn cause_exit(cause: ReadCause) -> Exit
    ensures { result ≡ cause_exit cause }
{
    match cause {
        ReadCause::NoMemory => Exit::NoMemory,
        ReadCause::Failed => Exit::SourceFault,
        ReadCause::TooLong { length } => Exit::TooLong { length },
    }
}

/// The path of a daemon's configuration file: the one that is named, or else that of the nscd.conf beside nsswitch.conf. Fails
/// only for want of memory.
pub fn conf_path(alloc: Global, etc: Option<&str>, config: Option<&str>) -> Result<String, NoMemory>
    ensures { IfOk result (λ path. string_bytes path ≡ conf_path (option_map (λ p. p.now) etc.entry) (option_map (λ p. p.now) config.entry)) }
{
    match (etc, config) {
        (_, Some(path)) => Ok(String::from_str(alloc, path)?),
        (Some(folder), None) => Ok(format!(in alloc; "{folder}/nscd.conf")?),
        (None, None) => Ok(String::from_str(alloc, "/etc/nscd.conf")?),
    }
}
