// Keys of requests for services: the name or the port, and the protocol.
ghost use Rattle.std.specs.Prelude.{◌≡◌};
ghost use Rattle.std.specs.Option.{option_map};
ghost use Rattle.nsc_model.specs.ServiceLines.{ServiceKey, exchanged, port_of, service_key};

use memchr::memrchr;
use nsc_base::decimal;

/// The name or port and the protocol of a key of a service: what stands before its last slash and after it, or the whole key and
/// nothing if it has none.
pub fn key_parts(key: &[u8]) -> (&[u8], &[u8])
    ensures { record { asked = result.0.now; proto = result.1.now } ≡ service_key key.now }
{
    match memrchr(b'/', key) {
        Some(at) => (&key[..at], &key[at + 1..]),
        None => (key, &[]),
    }
}

/// The port that a key spells in decimal, with its two bytes exchanged. `None` if it spells none.
pub fn key_port(text: &[u8]) -> Option<u16>
    ensures { result ≡ option_map exchanged (port_of text.now) }
{
    let number = decimal(text)?;
    let port = u16::try_from(number).ok()?;
    Some(port.swap_bytes())
}
