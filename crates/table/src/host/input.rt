// The records of a bench input: mark 0B 03, kind, length, body; numbers little-endian.
ghost use Rattle.std.specs.Prelude.{◌≡◌, ◌+◌};
ghost use Rattle.octets.specs.Field.{field};
ghost use Rattle.table.specs.Input.{marked, length_allowed, miscounted, event_at, taken_of, body_of};

use crate::host::settings::{settings_in, settings_length};
use crate::rules::event::Event;
use octets::field::{address_at, octet_at, u16_at};
use peer::settings::Settings;

// What stands at the front of the input.
#[derive(Clone, Copy)]
pub enum Taken {
    // A record that is not there whole.
    Cut,
    // A fault in mark, kind or length.
    Fault,
    // The settings, which stand first and only there.
    First(Settings),
    // An event; the octets of a frame, or of links, are the record's body.
    Next(Event),
}

fn is_marked(s: &[u8]) -> bool
    ensures { result ≡ marked s.now }
{
    u16_at(s, 0) == 0x030B
}

// Whether a record of a kind may have a length, and stand where it stands.
// Kinds by number: any octet may stand there, and `length_allowed` and `event_at` are about it.
fn length_allowed(first: bool, kind: u8, size: u16) -> bool
    ensures { result ≡ length_allowed first kind size }
{
    if first {
        kind == 0 && settings_length(size as usize)
    } else {
        match kind {
            1 => size == 9,
            2 => size <= 4096,
            3 => size == 2,
            4 => 7 <= size && size <= 1537,
            _ => false,
        }
    }
}

// Whether a record is one of links, and its length not that of their count.
fn is_miscounted(s: &[u8]) -> bool
    ensures { result ≡ miscounted s.now }
{
    octet_at(s, 2) == 4 && u16_at(s, 3) != 7 + 6 * (octet_at(s, 11) as u16)
}

// The event of a record: primitive, address, code; or a frame; or a clock step; or a device's links.
fn event_at(s: &[u8], kind: u8) -> Event
    ensures { result ≡ event_at s.now kind }
{
    match kind {
        1 => Event::Ask {
            primitive: octet_at(s, 5),
            address: address_at(s, 6),
            code: u16_at(s, 12),
        },
        2 => Event::Frame,
        3 => Event::Clock(u16_at(s, 5)),
        _ => Event::Links,
    }
}

// What stands at the front of the input s; `first` before any record was taken.
pub fn take(s: &[u8], first: bool) -> Taken
    ensures { result ≡ taken_of s.now first }
{
    if s.len() < 5 {
        return Taken::Cut;
    }
    if !is_marked(s) {
        return Taken::Fault;
    }
    let kind = octet_at(s, 2);
    let size = u16_at(s, 3);
    if !length_allowed(first, kind, size) {
        return Taken::Fault;
    }
    if s.len() - 5 < size as usize {
        return Taken::Cut;
    }
    if first {
        return Taken::First(settings_in(body(s)));
    }
    if is_miscounted(s) {
        Taken::Fault
    } else {
        Taken::Next(event_at(s, kind))
    }
}

// The octets of a record whose head is at the front of s.
pub fn record_length(s: &[u8]) -> usize
    ensures { result ≡ field 2 3 s.now + 5 }
{
    u16_at(s, 3) as usize + 5
}

// The body of a record whose head is at the front of s.
pub fn body(s: &[u8]) -> &[u8]
    ensures { result.now ≡ body_of s.now }
{
    let size = record_length(s);
    if size <= s.len() {
        &s[5..size]
    } else {
        &s[..0]
    }
}
