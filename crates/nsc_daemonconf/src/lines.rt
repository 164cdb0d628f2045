// Reading of nscd.conf(5) line by line, up to the first line at fault.
ghost use Rattle.std.specs.Prelude.{◌≡◌, ◌≤◌, IfOk, length};
ghost use Rattle.nsc_base.specs.Text.{part, words_of};
ghost use Rattle.nsc_daemonconf.specs.Lines.{after_line, attribute_does, conf_of, line_does, with_service};
ghost use Rattle.nsc_model.specs.Sizes.{SizeFits, SizesFit};

use crate::attributes::{Attribute, DaemonAttribute, DbAttribute, ServiceName};
use crate::words::{only_word, two_words};
use nsc_base::{Span, line_at, next_word};
use nsc_model::{Conf, ConfFault, Db, DbConf};

/// The settings of a text of nscd.conf(5): those that hold by default, with what each line in its order says, so that a
/// later line replaces an earlier one. Blanks and tabs part words, a `#` begins a remark, and a line with no word says
/// nothing. Attributes, services and values are told by their exact bytes, but for `unlimited`. The first line at fault
/// decides, and of its faults an unknown attribute before a bad line, and that before a bad value. Takes no memory.
pub fn read_conf(text: &[u8]) -> Result<Conf, ConfFault>
    ensures told { result ≡ conf_of text.now }

    // Each database has a size that a cache can have.
    ensures sizes { IfOk result (λ conf. SizesFit conf) }
{
    let mut conf = Conf::defaults();
    let mut number = 1;
    let mut from = 0;
    while let Some(line) = line_at(text, from) {
        conf = with_line(conf, text, line.span, number)?;
        number += 1;
        from = line.next;
    }
    Ok(conf)
}

// The settings with what a line of this number says.
fn with_line(conf: Conf, text: &[u8], line: Span, number: u64) -> Result<Conf, ConfFault>
    requires { line.to ≤ length text.now }
    ensures told { result ≡ after_line number conf (line_does (part text.now line)) }
    ensures sizes { IfOk result (λ later. SizesFit conf → SizesFit later) }
{
    let Some((word, rest)) = next_word(line.before_remark(text).of(text)) else {
        return Ok(conf);
    };
    let unknown = ConfFault::UnknownAttribute { line: number };
    match Attribute::named(word).ok_or(unknown)? {
        Attribute::OfDatabase(attribute) => with_database_line(conf, attribute, rest, number),
        Attribute::OfDaemon(attribute) => with_daemon_line(conf, attribute, rest, number),
    }
}

// The settings with an attribute of one database, after whose name a service and a value stand.
fn with_database_line(
    conf: Conf,
    attribute: DbAttribute,
    rest: &[u8],
    number: u64,
) -> Result<Conf, ConfFault>
    ensures told { result ≡ after_line number conf (attribute_does (Attribute.OfDatabase attribute) (words_of rest.now)) }
    ensures sizes { IfOk result (λ later. SizesFit conf → SizesFit later) }
{
    let bad_line = ConfFault::BadLine { line: number };
    let bad_value = ConfFault::BadValue { line: number };
    let (service, value) = two_words(rest).ok_or(bad_line)?;
    match ServiceName::named(service).ok_or(bad_line)? {
        ServiceName::Database(db) => {
            let changed = attribute.applied_to(conf.of(db), value).ok_or(bad_value)?;
            Ok(with_settings(conf, db, changed))
        }
        // The value is checked, at any settings, and then changes none.
        ServiceName::Netgroup => {
            attribute.applied_to(conf.passwd, value).ok_or(bad_value)?;
            Ok(conf)
        }
    }
}

// The settings with those of one database replaced.
fn with_settings(mut conf: Conf, db: Db, changed: DbConf) -> Conf
    ensures with { result ≡ with_service (ServiceName.Database db) (λ _. changed) conf }
    ensures sizes { SizesFit conf → SizeFits changed → SizesFit result }
{
    match db {
        Db::Passwd => conf.passwd = changed,
        Db::Group => conf.group = changed,
        Db::Hosts => conf.hosts = changed,
        Db::Services => conf.services = changed,
    }
    conf
}

// The settings with an attribute of the daemon, after whose name a value stands.
fn with_daemon_line(
    conf: Conf,
    attribute: DaemonAttribute,
    rest: &[u8],
    number: u64,
) -> Result<Conf, ConfFault>
    ensures told { result ≡ after_line number conf (attribute_does (Attribute.OfDaemon attribute) (words_of rest.now)) }
    ensures sizes { IfOk result (λ later. SizesFit conf → SizesFit later) }
{
    let bad_line = ConfFault::BadLine { line: number };
    let bad_value = ConfFault::BadValue { line: number };
    let value = only_word(rest).ok_or(bad_line)?;
    attribute.applied_to(conf, value).ok_or(bad_value)
}
