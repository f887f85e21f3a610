// The settings as octets: the body of the bench's settings record, for the program and for C.
ghost use Rattle.std.specs.Prelude.{◌≡◌, length};
ghost use Rattle.table.specs.Boundary.{edition_in, maximum_in, retry_in, settings_in, settings_length};

use octets::field::{address_at, octet_at, u16_at};
use peer::settings::Settings;

// Whether settings may have a length: 12, 14 with edition and protection, 18 with the times of a query too, or 24 with the network's address.
pub fn settings_length(n: usize) -> bool
    ensures { result ≡ settings_length n }
{
    // Length by length: of `matches!` the proof sees what the last arm knows under a name that may change.
    if n == 12 {
        return true;
    }
    if n == 14 {
        return true;
    }
    if n == 18 {
        return true;
    }
    n == 24
}

// The edition: the first, where none is given.
fn edition_in(s: &[u8]) -> u8
    ensures { result ≡ edition_in s.now }
{
    if s.len() < 14 { 1 } else { octet_at(s, 12) }
}

// The times of a query: 201 and 1,000 TU, where none are given.
fn retry_in(s: &[u8]) -> u16
    ensures { result ≡ retry_in s.now }
{
    if s.len() < 18 { 201 } else { u16_at(s, 14) }
}

fn maximum_in(s: &[u8]) -> u16
    ensures { result ≡ maximum_in s.now }
{
    if s.len() < 18 { 1000 } else { u16_at(s, 16) }
}

// All fields, as a program in C lends them. The compiler knows the length then, and looks for the end at no field. The network's address is read
// last: read earlier, what follows it would be shared with the shorter settings, by a jump.
fn all_in(s: &[u8]) -> Settings
    requires { length s.now ≡ 24 }
    ensures { result ≡ settings_in s.now }
{
    Settings {
        own: address_at(s, 1),
        authentication: u16_at(s, 8),
        association: u16_at(s, 10),
        role: octet_at(s, 0),
        rsna: octet_at(s, 7),
        edition: octet_at(s, 12),
        protection: octet_at(s, 13),
        retry: u16_at(s, 14),
        maximum: u16_at(s, 16),
        network: address_at(s, 18),
    }
}

// The settings in octets: role, own address, RSNA, two timeouts; edition, protection; a query's retry time and maximum; an ad hoc
// network's address. Of another length: settings out of range, refused 2.
// Settings out of range, and no Option: `settings_in` of `specs/Boundary.antt` gives these for another length.
pub fn settings_in(s: &[u8]) -> Settings
    ensures { result ≡ settings_in s.now }
{
    if s.len() == 24 {
        return all_in(s);
    }
    if !settings_length(s.len()) {
        return Settings {
            own: 0,
            network: 0,
            authentication: 0,
            association: 0,
            role: 0,
            rsna: 0,
            edition: 0,
            protection: 0,
            retry: 0,
            maximum: 0,
        };
    }
    Settings {
        own: address_at(s, 1),
        network: address_at(s, 18),
        authentication: u16_at(s, 8),
        association: u16_at(s, 10),
        role: octet_at(s, 0),
        rsna: octet_at(s, 7),
        edition: edition_in(s),
        protection: octet_at(s, 13),
        retry: retry_in(s),
        maximum: maximum_in(s),
    }
}
