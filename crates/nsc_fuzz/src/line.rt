// The readers of lines of account and network files.
ghost use Rattle.std.specs.Prelude.{◌≡◌, ◌≤◌, IfOk, length};
ghost use Rattle.nsc_base.specs.Text.{part};
ghost use Rattle.nsc_model.specs.Groups.{group_of_line};
ghost use Rattle.nsc_model.specs.Hosts.{host_of_line};
ghost use Rattle.nsc_model.specs.ServiceLines.{service_of_line};
ghost use Rattle.nsc_model.specs.Users.{user_of_line};
ghost use Rattle.nsc_fuzz.specs.Told.{IsTold, group_told, host_told, option_told, service_told, user_told};

use crate::put::{hand_over, put_number};
use crate::row::{put_group, put_host, put_service, put_user};
use nsc_accounts::{group_line, group_row, passwd_line, user_row};
use nsc_base::{NoMemory, Span};
use nsc_nets::{host_line, host_row, service_line, service_row};
use std::alloc::Global;

/// The user of a line of passwd(5): 1 and the row, or 0 if the line has not the form. The line stands in the text from one place up to, and
/// without, another that is not before it, and not behind the end of the text. Rows are those of `nsc_decode_reply`.
#[unsafe(no_mangle)]
pub extern "C" fn nsc_passwd_line(
    alloc: Global,
    text: &[u8],
    from: usize,
    to: usize,
    room: &mut [u8],
) -> usize
    requires ordered { from ≤ to }
    requires inside { to ≤ length text.now }
    ensures { IsTold (option_told user_told (user_of_line (part text.now (record { from = from; to = to })))) room.old room.new result }
{
    hand_over(user(alloc, text, Span::new(from, to)), room)
}

// What the user of a line is told as.
fn user(alloc: Global, text: &[u8], line: Span) -> Result<Vec<u8>, NoMemory>
    requires { line.to ≤ length text.now }
    ensures { IfOk result (λ told. told.items ≡ option_told user_told (user_of_line (part text.now line))) }
{
    let mut out = Vec::new(alloc);
    match passwd_line(text, line) {
        Some(at) => {
            put_number(&mut out, 1)?;
            put_user(&mut out, &user_row(alloc, text, &at)?)?;
        }
        None => put_number(&mut out, 0)?,
    }
    Ok(out)
}

/// The group of a line of group(5), as `nsc_passwd_line` gives a user.
#[unsafe(no_mangle)]
pub extern "C" fn nsc_group_line(
    alloc: Global,
    text: &[u8],
    from: usize,
    to: usize,
    room: &mut [u8],
) -> usize
    requires ordered { from ≤ to }
    requires inside { to ≤ length text.now }
    ensures { IsTold (option_told group_told (group_of_line (part text.now (record { from = from; to = to })))) room.old room.new result }
{
    hand_over(group(alloc, text, Span::new(from, to)), room)
}

// What the group of a line is told as.
fn group(alloc: Global, text: &[u8], line: Span) -> Result<Vec<u8>, NoMemory>
    requires { line.to ≤ length text.now }
    ensures { IfOk result (λ told. told.items ≡ option_told group_told (group_of_line (part text.now line))) }
{
    let mut out = Vec::new(alloc);
    match group_line(text, line) {
        Some(at) => {
            put_number(&mut out, 1)?;
            put_group(&mut out, &group_row(alloc, text, &at)?)?;
        }
        None => put_number(&mut out, 0)?,
    }
    Ok(out)
}

/// The host of a line of hosts(5), as `nsc_passwd_line` gives a user.
#[unsafe(no_mangle)]
pub extern "C" fn nsc_host_line(
    alloc: Global,
    text: &[u8],
    from: usize,
    to: usize,
    room: &mut [u8],
) -> usize
    requires ordered { from ≤ to }
    requires inside { to ≤ length text.now }
    ensures { IsTold (option_told host_told (host_of_line (part text.now (record { from = from; to = to })))) room.old room.new result }
{
    hand_over(host(alloc, text, Span::new(from, to)), room)
}

// What the host of a line is told as.
fn host(alloc: Global, text: &[u8], line: Span) -> Result<Vec<u8>, NoMemory>
    requires { line.to ≤ length text.now }
    ensures { IfOk result (λ told. told.items ≡ option_told host_told (host_of_line (part text.now line))) }
{
    let mut out = Vec::new(alloc);
    match host_line(text, line) {
        Some(at) => {
            put_number(&mut out, 1)?;
            put_host(&mut out, &host_row(alloc, text, &at)?)?;
        }
        None => put_number(&mut out, 0)?,
    }
    Ok(out)
}

/// The service of a line of services(5), as `nsc_passwd_line` gives a user.
#[unsafe(no_mangle)]
pub extern "C" fn nsc_service_line(
    alloc: Global,
    text: &[u8],
    from: usize,
    to: usize,
    room: &mut [u8],
) -> usize
    requires ordered { from ≤ to }
    requires inside { to ≤ length text.now }
    ensures { IsTold (option_told service_told (service_of_line (part text.now (record { from = from; to = to })))) room.old room.new result }
{
    hand_over(service(alloc, text, Span::new(from, to)), room)
}

// What the service of a line is told as.
fn service(alloc: Global, text: &[u8], line: Span) -> Result<Vec<u8>, NoMemory>
    requires { line.to ≤ length text.now }
    ensures { IfOk result (λ told. told.items ≡ option_told service_told (service_of_line (part text.now line))) }
{
    let mut out = Vec::new(alloc);
    match service_line(text, line) {
        Some(at) => {
            put_number(&mut out, 1)?;
            put_service(&mut out, &service_row(alloc, text, &at)?)?;
        }
        None => put_number(&mut out, 0)?,
    }
    Ok(out)
}
