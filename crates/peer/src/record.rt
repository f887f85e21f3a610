// A peer's record: its address, its state, the exchange under way, the times left, a query to it, and its links. An exchange
// and its numbers are in exchange.rt, and named here too.
ghost use Rattle.std.specs.Prelude.{◌≡◌};
ghost use Rattle.peer.specs.Record.{associates, changed_of, free_of, fresh_of, is_free, is_joined, linked_of, queried_of, spoken_at};

pub use crate::exchange::{
    ASSOCIATION, AUTHENTICATION, Exchange, REASSOCIATION, asked, associating, awaiting,
    exchange_number, exchange_of, kind_number, sent, under_way,
};
use crate::query::{Query, query_in, query_number};
use octets::links::Links;

#[derive(Clone, Copy)]
pub struct Record {
    pub address: u64,
    pub state: u8,
    pub exchange: Exchange,
    // TU left of the exchange, and of the hold.
    pub left: u16,
    pub hold: u32,
    // An SA Query to the peer, and the identifier of its last one.
    pub query: Query,
    pub identifier: u16,
    // The addresses of a device's links, at an AP.
    pub links: Links,
}

impl Record {
    // The states by number, as document 01 compares them; a record may come in with any, and `place_fits` says whether it is one.
    pub const STATE_1: u8 = 1;

    pub const STATE_2: u8 = 2;

    pub const STATE_3: u8 = 3;

    pub const STATE_4: u8 = 4;

    // The hold where no time is given: 2 s in whole TU, rounded up.
    pub const HOLD: u32 = 1954;

    // A record as it is when its peer is first heard of.
    #[tactic(auto, unfolding(crate::specs::Record::fresh_of))]
    pub fn fresh(address: u64) -> Record
        ensures { result ≡ fresh_of address }
    {
        Record {
            address,
            state: Record::STATE_1,
            ..Record::free()
        }
    }

    // A free place.
    pub fn free() -> Record
        ensures { result ≡ free_of }
    {
        Record {
            address: 0,
            state: 0,
            exchange: Exchange::None,
            left: 0,
            hold: 0,
            query: Query::None,
            identifier: 0,
            links: Links::none(),
        }
    }

    // The record of the same peer with another state, exchange and times. A query ends where State 4 does.
    #[tactic(auto, unfolding(crate::specs::Record::changed_of))]
    pub fn changed(self, state: u8, exchange: Exchange, left: u16, hold: u32) -> Record
        ensures { result ≡ changed_of self state exchange left hold }
    {
        Record {
            state,
            exchange,
            left,
            hold,
            query: query_in(state, self.query),
            ..self
        }
    }

    // The same record with another query.
    #[tactic(auto, unfolding(crate::specs::Record::queried_of))]
    pub fn queried(self, query: Query, identifier: u16) -> Record
        ensures { result ≡ queried_of self query identifier }
    {
        Record {
            query,
            identifier,
            ..self
        }
    }

    // The same record with other links.
    #[tactic(auto, unfolding(crate::specs::Record::linked_of))]
    pub fn linked(self, links: Links) -> Record
        ensures { result ≡ linked_of self links }
    {
        Record { links, ..self }
    }

    // The address that our own frames go to: the first link's, or the device's.
    #[tactic(auto, unfolding(crate::specs::Record::spoken_at))]
    pub fn spoken_at(self) -> u64
        ensures { result ≡ spoken_at self }
    {
        if self.links.one == 0 {
            self.address
        } else {
            self.links.one
        }
    }

    // Whether a place is free: all zero. `self == Record::free()` and `==` on the query were tried, and the proof did not close.
    #[tactic(auto, unfolding(crate::specs::Record::is_free))]
    pub fn is_free(self) -> bool
        ensures { result ≡ is_free self }
    {
        self.address == 0
            && self.state == 0
            && self.left == 0
            && self.hold == 0
            && self.identifier == 0
            && query_number(self.query) == 0
            && self.links.is_none()
            && under_way(self.exchange) == 0
    }

    // Whether the peer is associated: State 3 or 4.
    #[tactic(auto, unfolding(crate::specs::Record::is_joined))]
    pub fn is_joined(self) -> bool
        ensures { result ≡ is_joined self }
    {
        Record::STATE_3 <= self.state
    }

    // Whether a (re)association is under way.
    #[tactic(auto, unfolding(crate::specs::Record::associates))]
    pub fn is_associating(self) -> bool
        ensures { result ≡ associates self }
    {
        match self.exchange {
            Exchange::None => false,
            Exchange::Asked(k) | Exchange::Awaiting(k) | Exchange::Sent(k) => associating(k),
        }
    }
}
