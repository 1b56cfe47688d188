// Reads an address.
ghost use Rattle.std.specs.Prelude.{◌≡◌, ◌<◌, ◌^◌, ℕ, decimal, MatchOption};
ghost use Rattle.ld_table.specs.Words.{any_of, all_of};
ghost use Rattle.ld_words.specs.Meaning.{is_letter, is_of_name, is_host_name, IsNameAndPort, IsOfPort};

use ld_lsn::text::{number, split_at_byte};
use std::net::SocketAddr;

/// Whether the byte is a letter.
fn is_letter(byte: u8) -> bool
    ensures { result ≡ is_letter byte }
{
    (65 <= byte && byte <= 90) || (97 <= byte && byte <= 122)
}

/// Whether the byte is one of a host's name: a letter, a digit, a hyphen, a dot or an underscore.
fn is_of_name(byte: u8) -> bool
    ensures { result ≡ is_of_name byte }
{
    is_letter(byte) || (48 <= byte && byte <= 57) || byte == 45 || byte == 46 || byte == 95
}

/// Whether the bytes are all of a host's name.
fn are_of_name(host: &[u8]) -> bool
    ensures { result ≡ all_of is_of_name host.now }
{
    for byte in host {
        if !is_of_name(*byte) {
            return false;
        }
    }
    true
}

/// Whether there is a letter among the bytes.
fn has_letter(host: &[u8]) -> bool
    ensures { result ≡ any_of is_letter host.now }
{
    for byte in host {
        if is_letter(*byte) {
            return true;
        }
    }
    false
}

/// Whether the bytes are the name of a host. One without a letter is none: an IP address would be meant by it.
fn is_host_name(host: &[u8]) -> bool
    ensures { result ≡ is_host_name host.now }
{
    host.len() <= 253 && are_of_name(host) && has_letter(host)
}

/// A port, in digits without a sign or a leading zero.
fn port_number(digits: &[u8]) -> Option<u16>
    ensures { MatchOption result ((port : ℕ) → port < 2 ^ 16 → digits.now ≡ decimal port → ⊥) (λ port. (digits.now ≡ decimal port) × (port < 2 ^ 16)) }
{
    let Some(number) = number(digits) else {
        return None;
    };
    if number <= 65_535 {
        Some(number as u16)
    } else {
        None
    }
}

/// The port of an address whose host is a name.
fn port_of_name(text: &str) -> Option<u16>
    ensures { MatchOption result ((port : ℕ) → IsNameAndPort text.now port → ⊥) (IsNameAndPort text.now) }
{
    let Some((host, digits)) = split_at_byte(text.as_bytes(), 58) else {
        return None;
    };
    if is_host_name(host) {
        port_number(digits)
    } else {
        None
    }
}

/// The port of an address.
pub fn port_of(text: &str) -> Option<u16>
    ensures { MatchOption result ((port : ℕ) → IsOfPort text.now port → ⊥) (IsOfPort text.now) }
{
    match text.parse::<SocketAddr>() {
        Ok(socket) => Some(socket.port()),
        Err(_) => port_of_name(text),
    }
}
