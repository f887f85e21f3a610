// What is said to a peer: a frame by value, or nothing. Its octets are written above.
ghost use Rattle.std.specs.Prelude.{◌≡◌};
ghost use Rattle.peer.specs.Reply.{authentication_to, deauthentication_to, directed_of, disassociation_to, later_to, network_address, query_to, request_body, request_subtype, request_to, response_subtype, response_to, send_of};

use crate::settings::Settings;
use octets::frame::{Body, Frame, capability};
use octets::heard::Kind;

// The frame that is said, or `None` where nothing is.
pub type Reply = Option<Frame>;

// Address 3: the AP's, or the ad hoc network's.
#[tactic(auto, unfolding(crate::specs::Reply::network_address))]
fn network_address(s: Settings, peer: u64) -> u64
    ensures { result ≡ network_address s peer }
{
    match s.role {
        Settings::AP => s.own,
        Settings::AD_HOC => s.network,
        _ => peer,
    }
}

// A frame to a peer.
#[tactic(auto, unfolding(crate::specs::Reply::send_of))]
fn send(s: Settings, peer: u64, subtype: u8, body: Body) -> Reply
    ensures { result ≡ send_of s peer subtype body }
{
    Some(Frame {
        subtype,
        address1: peer,
        address2: s.own,
        address3: network_address(s, peer),
        body,
    })
}

#[tactic(auto, unfolding(crate::specs::Reply::authentication_to))]
pub fn authentication(
    s: Settings,
    peer: u64,
    algorithm: u16,
    transaction: u16,
    status: u16,
) -> Reply
    ensures { result ≡ authentication_to s peer algorithm transaction status }
{
    send(
        s,
        peer,
        Frame::AUTHENTICATION,
        Body::Authentication {
            algorithm,
            transaction,
            status,
        },
    )
}

#[tactic(auto, unfolding(crate::specs::Reply::deauthentication_to))]
pub fn deauthentication(s: Settings, peer: u64, reason: u16) -> Reply
    ensures { result ≡ deauthentication_to s peer reason }
{
    send(s, peer, Frame::DEAUTHENTICATION, Body::Reason(reason))
}

#[tactic(auto, unfolding(crate::specs::Reply::disassociation_to))]
pub fn disassociation(s: Settings, peer: u64, reason: u16) -> Reply
    ensures { result ≡ disassociation_to s peer reason }
{
    send(s, peer, Frame::DISASSOCIATION, Body::Reason(reason))
}

fn request_subtype(k: Kind) -> u8
    ensures { result ≡ request_subtype k }
{
    match k {
        Kind::Authentication => Frame::AUTHENTICATION,
        Kind::Association => Frame::ASSOCIATION_REQUEST,
        Kind::Reassociation => Frame::REASSOCIATION_REQUEST,
    }
}

fn response_subtype(k: Kind) -> u8
    ensures { result ≡ response_subtype k }
{
    match k {
        Kind::Authentication => Frame::AUTHENTICATION,
        Kind::Association => Frame::ASSOCIATION_RESPONSE,
        Kind::Reassociation => Frame::REASSOCIATION_RESPONSE,
    }
}

// The body of a request: of an authentication the first transaction.
fn request_body(k: Kind, capability: u16, current: u64) -> Body
    ensures { result ≡ request_body k capability current }
{
    match k {
        Kind::Authentication => Body::Authentication {
            algorithm: 0,
            transaction: 1,
            status: 0,
        },
        Kind::Association => Body::AssociationRequest { capability },
        Kind::Reassociation => Body::ReassociationRequest {
            capability,
            current,
        },
    }
}

// The request that starts an exchange; a reassociation's with the current AP.
#[tactic(auto, unfolding(crate::specs::Reply::request_to))]
pub fn request(s: Settings, peer: u64, k: Kind, current: u64) -> Reply
    ensures { result ≡ request_to s peer k current }
{
    let body = request_body(k, capability(s.rsna), current);
    send(s, peer, request_subtype(k), body)
}

// A (re)association response.
#[tactic(auto, unfolding(crate::specs::Reply::response_to))]
pub fn response(s: Settings, peer: u64, k: Kind, status: u16, aid: u16) -> Reply
    ensures { result ≡ response_to s peer k status aid }
{
    let body = Body::Response {
        capability: capability(s.rsna),
        status,
        aid,
    };
    send(s, peer, response_subtype(k), body)
}

// A (re)association response that says when to come back.
#[tactic(auto, unfolding(crate::specs::Reply::later_to))]
pub fn later(s: Settings, peer: u64, k: Kind, status: u16, time: u32) -> Reply
    ensures { result ≡ later_to s peer k status time }
{
    let body = Body::Later {
        capability: capability(s.rsna),
        status,
        time,
    };
    send(s, peer, response_subtype(k), body)
}

// An SA Query, request or response.
#[tactic(auto, unfolding(crate::specs::Reply::query_to))]
pub fn query(s: Settings, peer: u64, action: u8, identifier: u16) -> Reply
    ensures { result ≡ query_to s peer action identifier }
{
    send(s, peer, Frame::ACTION, Body::Query { action, identifier })
}

// The same frame to another address of the peer.
pub fn directed(reply: Reply, address: u64) -> Reply
    ensures { result ≡ directed_of address reply }
{
    reply.map(|f| Frame {
        address1: address,
        ..f
    })
}
