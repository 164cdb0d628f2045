// The reader of nscd.conf(5).
ghost use Rattle.std.specs.Prelude.{◌≡◌, ◌++◌, IfOk, OnOk};
ghost use Rattle.nsc_daemonconf.specs.Lines.{conf_of};
ghost use Rattle.nsc_fuzz.specs.Told.{IsTold, conf_told, number_told, option_told, settings_told};

use crate::put::{hand_over, put_flag, put_number};
use nsc_base::NoMemory;
use nsc_daemonconf::read_conf;
use nsc_model::{ConfFault, DbConf};
use std::alloc::Global;

/// The settings of a text of nscd.conf(5): 0, with those of users, groups, hosts and services, 1 and the reload count or 0 where it has
/// no limit, and the number of threads; 1 for a bad line, 2 for a bad value and 3 for an unknown attribute, each with the number of the
/// line.
///
/// The settings of a database are, in this order: the flag enable-cache, positive-time-to-live, negative-time-to-live, suggested-size,
/// the flags check-files, persistent and shared, max-db-size, and the flag auto-propagate.
#[unsafe(no_mangle)]
pub extern "C" fn nsc_read_conf(alloc: Global, text: &[u8], room: &mut [u8]) -> usize
    ensures { IsTold (conf_told (conf_of text.now)) room.old room.new result }
{
    hand_over(told(alloc, text), room)
}

// What the settings are told as.
fn told(alloc: Global, text: &[u8]) -> Result<Vec<u8>, NoMemory>
    ensures { IfOk result (λ told. told.items ≡ conf_told (conf_of text.now)) }
{
    let mut out = Vec::new(alloc);
    match read_conf(text) {
        Ok(conf) => {
            put_number(&mut out, 0)?;
            put_settings(&mut out, &conf.passwd)?;
            put_settings(&mut out, &conf.group)?;
            put_settings(&mut out, &conf.hosts)?;
            put_settings(&mut out, &conf.services)?;
            put_limit(&mut out, conf.reloads)?;
            put_number(&mut out, u64::from(conf.threads))?;
        }
        Err(ConfFault::BadLine { line }) => {
            put_number(&mut out, 1)?;
            put_number(&mut out, line)?;
        }
        Err(ConfFault::BadValue { line }) => {
            put_number(&mut out, 2)?;
            put_number(&mut out, line)?;
        }
        Err(ConfFault::UnknownAttribute { line }) => {
            put_number(&mut out, 3)?;
            put_number(&mut out, line)?;
        }
    }
    Ok(out)
}

// Puts the settings of a database.
#[tactic(auto, unfolding(crate::specs::Told::settings_told))]
fn put_settings(out: &mut Vec<u8>, settings: &DbConf) -> Result<(), NoMemory>
    ensures { OnOk result (out.new.items ≡ out.old.items ++ settings_told settings.now) }
{
    put_flag(out, settings.enabled)?;
    put_number(out, u64::from(settings.positive))?;
    put_number(out, u64::from(settings.negative))?;
    put_number(out, u64::from(settings.size))?;
    put_flag(out, settings.check_files)?;
    put_flag(out, settings.persistent)?;
    put_flag(out, settings.shared)?;
    put_number(out, u64::from(settings.max_size))?;
    put_flag(out, settings.propagate)
}

// Puts a limit, if there is one.
fn put_limit(out: &mut Vec<u8>, limit: Option<u32>) -> Result<(), NoMemory>
    ensures { OnOk result (out.new.items ≡ out.old.items ++ option_told number_told limit) }
{
    match limit {
        Some(limit) => {
            put_number(out, 1)?;
            put_number(out, u64::from(limit))
        }
        None => put_number(out, 0),
    }
}
