// What a received frame says: the fields that its kind has, read once.
ghost use Rattle.std.specs.Prelude.{◌≡◌};
ghost use Rattle.octets.specs.Heard.{authentication_of, query_of, response_of, heard_of};

use crate::element::first_comeback;
use crate::field::{address_at, octet_at, u16_at};
use crate::frame::Frame;

// The three exchanges, each a request and a response.
#[derive(Clone, Copy, PartialEq, Eq)]
pub enum Kind {
    Authentication,
    Association,
    Reassociation,
}

#[derive(Clone, Copy, PartialEq, Eq)]
pub enum Heard {
    Other,
    Authentication {
        algorithm: u16,
        transaction: u16,
        status: u16,
    },
    Deauthentication(u16),
    Disassociation(u16),
    // A (re)association request; the current AP of a reassociation, else 0.
    Request {
        kind: Kind,
        current: u64,
    },
    // A (re)association response; of the AID the low 14 bits. The comeback is a time in TU, where one is given, and 0 is a time.
    Response {
        kind: Kind,
        status: u16,
        aid: u16,
        comeback: Option<u32>,
    },
    // An SA Query, with its identifier.
    QueryRequest(u16),
    QueryResponse(u16),
}

// The fields of an authentication frame.
fn authentication(frame: &[u8]) -> Heard
    ensures { result ≡ authentication_of frame.now }
{
    Heard::Authentication {
        algorithm: u16_at(frame, 24),
        transaction: u16_at(frame, 26),
        status: u16_at(frame, 28),
    }
}

// The fields of a (re)association response.
fn response(frame: &[u8], kind: Kind) -> Heard
    ensures { result ≡ response_of frame.now kind }
{
    Heard::Response {
        kind,
        status: u16_at(frame, 26),
        aid: u16_at(frame, 28) % 16384,
        comeback: first_comeback(frame),
    }
}

// An SA Query, or an Action frame of another kind.
fn query(frame: &[u8]) -> Heard
    ensures { result ≡ query_of frame.now }
{
    if frame.len() < 28 {
        return Heard::Other; // no identifier
    }
    if octet_at(frame, 24) != Frame::SA_QUERY {
        return Heard::Other; // another category
    }
    let identifier = u16_at(frame, 26);
    match octet_at(frame, 25) {
        0 => Heard::QueryRequest(identifier),
        1 => Heard::QueryResponse(identifier),
        _ => Heard::Other,
    }
}

// What a frame says, by its type and subtype.
pub fn read(frame: &[u8]) -> Heard
    ensures { result ≡ heard_of frame.now }
{
    let first = octet_at(frame, 0);
    if first / 4 % 4 != 0 {
        return Heard::Other;
    }
    let subtype = first / 16;
    match subtype {
        0 => Heard::Request {
            kind: Kind::Association,
            current: 0,
        },
        1 => response(frame, Kind::Association),
        2 => Heard::Request {
            kind: Kind::Reassociation,
            current: address_at(frame, 28),
        },
        3 => response(frame, Kind::Reassociation),
        10 => Heard::Disassociation(u16_at(frame, 24)),
        11 => authentication(frame),
        12 => Heard::Deauthentication(u16_at(frame, 24)),
        13 => query(frame),
        _ => Heard::Other,
    }
}
