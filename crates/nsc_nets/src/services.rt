// Lines of services(5): the port of an entry, and the places of its names and protocol.
ghost use Rattle.std.specs.Prelude.{◌≡◌, ◌≤◌, ◌∷◌, length, IfSome};
ghost use Rattle.std.specs.Option.{option_map};
ghost use Rattle.nsc_base.specs.Text.{LiesIn, part, word_spans};
ghost use Rattle.nsc_model.specs.ServiceLines.{port_of, service_of_line};
ghost use Rattle.nsc_nets.specs.Lines.{entry_part};
ghost use Rattle.nsc_nets.specs.Services.{ProtoStands, ServiceLiesIn, ServiceStands, port_at, port_of_word, service_at, service_of_formed};
ghost use Rattle.nsc_base.specs.Words.{WordsLieIn, words_at};

use crate::words::line_words;
use nsc_base::{Span, WordsAt, decimal, has_zero_byte};

/// Where the texts of a service's entry stand in a text, and its port.
#[derive(Clone, Copy, Debug, PartialEq, Eq)]
pub struct ServiceAt {
    /// The official name.
    pub name: Span,
    /// The port, as a number.
    pub port: u16,
    /// The protocol.
    pub proto: Span,
    /// The further names, with the white space between them.
    pub aliases: Span,
}

/// A port, and where the protocol after it stands.
#[derive(Clone, Copy, Debug)]
pub struct PortAt {
    /// The port, as a number.
    pub port: u16,
    /// The protocol.
    pub proto: Span,
}

/// The entry of a line of a services file, services(5), as places in the text: `name port/protocol aliases`, with blanks
/// or tabs between the words, and a remark from a `#` on. `None` where the line lacks the form: it has fewer than two
/// words, a zero byte, a port that is not a decimal number below 2^16, or no protocol. Takes no memory.
pub fn service_line(text: &[u8], line: Span) -> Option<ServiceAt>
    requires { line.to ≤ length text.now }
    ensures entry { option_map (service_at text.now) result ≡ service_of_line (part text.now line) }
    ensures inside { IfSome result (ServiceLiesIn line) }
    ensures stands { IfSome result (ServiceStands text.now line) }
{
    formed_service(text, line, line_words(text, line)?)
}

/// The entry of a line whose words are known. `None` where the line lacks the form.
pub fn formed_service(text: &[u8], line: Span, words: WordsAt) -> Option<ServiceAt>
    requires inside { line.to ≤ length text.now }
    requires words_in { WordsLieIn line words }
    requires words_stand { word_spans text.now (entry_part text.now line) ≡ words.first ∷ words.second ∷ word_spans text.now words.others }
    ensures entry { option_map (service_at text.now) result ≡ service_of_formed (part text.now line) (words_at text.now words) }
    ensures inside { IfSome result (ServiceLiesIn line) }
    ensures stands { IfSome result (ServiceStands text.now line) }
{
    if has_zero_byte(line.of(text)) {
        return None;
    }
    let port = port_and_proto(text, words.second)?;
    Some(ServiceAt {
        name: words.first,
        port: port.port,
        proto: port.proto,
        aliases: words.others,
    })
}

/// The port and the protocol that a word spells, with a slash between them.
pub fn port_and_proto(text: &[u8], word: Span) -> Option<PortAt>
    requires { word.to ≤ length text.now }
    ensures port { option_map (port_at text.now) result ≡ port_of_word (part text.now word) }
    ensures inside { IfSome result (λ at. LiesIn word at.proto) }
    ensures stands { IfSome result (λ at. ProtoStands text.now word at.proto) }
{
    let (digits, proto) = word.split_at_byte(text, b'/')?;
    if proto.is_empty() {
        return None;
    }
    let port = port_number(digits.of(text))?;
    Some(PortAt { port, proto })
}

// The port that a text spells in decimal.
fn port_number(text: &[u8]) -> Option<u16>
    ensures { result ≡ port_of text.now }
{
    u16::try_from(decimal(text)?).ok()
}
