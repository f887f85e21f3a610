// The frames that are written, and how: 24 octets of header, then the body.
ghost use Rattle.std.specs.Prelude.{◌≡◌, ◌+◌, ◌≤◌, length};
ghost use Rattle.octets.specs.Stored.{Stored};
ghost use Rattle.octets.specs.Frame.{aid_field, capability_of, comeback_element, head_of, body_of, written_of, length_of};

use crate::put::{put_address, put_octet, put_u16, put_u32};

#[derive(Clone, Copy, PartialEq, Eq)]
pub enum Body {
    Authentication {
        algorithm: u16,
        transaction: u16,
        status: u16,
    },
    AssociationRequest {
        capability: u16,
    },
    ReassociationRequest {
        capability: u16,
        current: u64,
    },
    // A (re)association response.
    Response {
        capability: u16,
        status: u16,
        aid: u16,
    },
    // A (re)association response with AID 0 and the time after which the station may come back, in a Timeout Interval element.
    Later {
        capability: u16,
        status: u16,
        time: u32,
    },
    // Deauthentication or disassociation.
    Reason(u16),
    // An SA Query: request 0, response 1.
    Query {
        action: u8,
        identifier: u16,
    },
}

#[derive(Clone, Copy, PartialEq, Eq)]
pub struct Frame {
    pub subtype: u8,
    pub address1: u64,
    pub address2: u64,
    pub address3: u64,
    pub body: Body,
}

impl Frame {
    // The standard's management subtypes.
    // Numbers: `write` promises `written_of` for any subtype and action, and an enum would ask more of its callers.
    pub const ASSOCIATION_REQUEST: u8 = 0;

    pub const ASSOCIATION_RESPONSE: u8 = 1;

    pub const REASSOCIATION_REQUEST: u8 = 2;

    pub const REASSOCIATION_RESPONSE: u8 = 3;

    pub const DISASSOCIATION: u8 = 10;

    pub const AUTHENTICATION: u8 = 11;

    pub const DEAUTHENTICATION: u8 = 12;

    pub const ACTION: u8 = 13;

    // The category of an SA Query, and its actions.
    pub const SA_QUERY: u8 = 8;

    pub const QUERY_REQUEST: u8 = 0;

    pub const QUERY_RESPONSE: u8 = 1;

    pub const LISTEN_INTERVAL: u16 = 10;

    // The octets of the longest frame written: the room that every event but a clock step is lent.
    pub const LONGEST: usize = 37;
}

// The capability field: ESS, and privacy where RSNA is required.
pub fn capability(rsna: u8) -> u16
    ensures { result ≡ capability_of rsna }
{
    if rsna == 1 { 0x0011 } else { 0x0001 }
}

// The AID field: the AID with its two top bits set; 0 is written as 0.
fn aid_field(aid: u16) -> u16
    ensures { result ≡ aid_field aid }
{
    if aid == 0 { 0 } else { aid % 16384 + 49152 }
}

fn put_head(out: &mut [u8], f: Frame)
    requires { 24 ≤ length out.old }
    ensures { Stored out.old 0 (head_of f) out.new }
{
    put_u16(out, 0, (f.subtype % 16 * 16) as u16);
    put_u16(out, 2, 0);
    put_address(out, 4, f.address1);
    put_address(out, 10, f.address2);
    put_address(out, 16, f.address3);
    put_u16(out, 22, 0);
}

// The Timeout Interval element of a rejection: id 56, length 5, type 3, the time.
fn put_comeback(out: &mut [u8], time: u32)
    requires { 37 ≤ length out.old }
    ensures { Stored out.old 30 (comeback_element time) out.new }
{
    put_octet(out, 30, 56);
    put_octet(out, 31, 5);
    put_octet(out, 32, 3);
    put_u32(out, 33, time);
}

fn put_body(out: &mut [u8], b: Body) -> u16
    requires { 37 ≤ length out.old }
    ensures { (result ≡ 24 + length (body_of b)) × (Stored out.old 24 (body_of b) out.new) }
{
    match b {
        Body::Authentication {
            algorithm,
            transaction,
            status,
        } => {
            put_u16(out, 24, algorithm);
            put_u16(out, 26, transaction);
            put_u16(out, 28, status);
            30
        }
        Body::AssociationRequest { capability } => {
            put_u16(out, 24, capability);
            put_u16(out, 26, Frame::LISTEN_INTERVAL);
            28
        }
        Body::ReassociationRequest {
            capability,
            current,
        } => {
            put_u16(out, 24, capability);
            put_u16(out, 26, Frame::LISTEN_INTERVAL);
            put_address(out, 28, current);
            34
        }
        Body::Response {
            capability,
            status,
            aid,
        } => {
            put_u16(out, 24, capability);
            put_u16(out, 26, status);
            put_u16(out, 28, aid_field(aid));
            30
        }
        Body::Later {
            capability,
            status,
            time,
        } => {
            put_u16(out, 24, capability);
            put_u16(out, 26, status);
            put_u16(out, 28, 0);
            put_comeback(out, time);
            37
        }
        Body::Reason(reason) => {
            put_u16(out, 24, reason);
            26
        }
        Body::Query { action, identifier } => {
            put_octet(out, 24, Frame::SA_QUERY);
            put_octet(out, 25, action);
            put_u16(out, 26, identifier);
            28
        }
    }
}

// Writes a frame at the front of the buffer and gives its length. A buffer too short for the longest frame stays as it was,
// and the answer is 0.
pub fn write(out: &mut [u8], f: Frame) -> u16
    ensures { (result ≡ length_of f (length out.old)) × (out.new ≡ written_of f out.old) }
{
    if out.len() < Frame::LONGEST {
        return 0;
    }
    put_head(out, f);
    let body = f.body;
    put_body(out, body)
}
