// A received frame, read once: the steps that are settled before a record is looked up.
ghost use Rattle.std.specs.Prelude.{◌≡◌, true};
ghost use Rattle.octets.specs.Address.{group_of};
ghost use Rattle.octets.specs.Field.{field};
ghost use Rattle.octets.specs.declared.heard.Heard.TheVariants as heard;
ghost use Rattle.octets.specs.declared.sort.Sort.TheVariants as sort;
ghost use Rattle.table.specs.Read.{for_us, read_bare, read_from, read_full, read_of};
ghost use Rattle.table.specs.declared.rules.read.Reading.TheVariants as reading;

use crate::rules::common::common;
use octets::address::{group, valid};
use octets::element::broken;
use octets::field::{address_at, octet_at};
use octets::heard::Heard;
use octets::shape::{Shape, measure};
use octets::sort::{Sort, sorted};

#[derive(Clone, Copy)]
pub enum Reading {
    // A refusal number.
    // Any: `heard_at` and `frame_why` say of any what comes of it.
    Refused(u8),
    // Discard, nothing else.
    Discarded,
    // Admit, no peer.
    Admitted,
    // From a peer; whether Address 1 is a group address.
    From {
        peer: u64,
        group: bool,
        sort: Sort,
        heard: Heard,
    },
}

// Whether Address 1 is our own or a group address.
fn for_us(own: u64, to: u64) -> bool
    ensures { result ≡ for_us own to }
{
    to == own || group(to)
}

fn read_bare(own: u64, frame: &[u8]) -> Reading
    ensures { result ≡ read_bare own frame.now }
{
    if for_us(own, address_at(frame, 4)) {
        Reading::Admitted
    } else {
        Reading::Refused(4)
    }
}

// A frame from a peer: its elements are looked at before its class.
fn read_from(infrastructure: bool, peer: u64, to: u64, frame: &[u8]) -> Reading
    ensures { result ≡ read_from infrastructure peer to frame.now }
{
    if broken(frame) {
        return Reading::Refused(3); // 02, K7
    }
    Reading::From {
        peer,
        group: group(to),
        sort: sorted(infrastructure, frame),
        heard: octets::heard::read(frame),
    }
}

fn read_full(own: u64, infrastructure: bool, frame: &[u8]) -> Reading
    ensures { result ≡ read_full own infrastructure frame.now }
{
    let to = address_at(frame, 4);
    if !for_us(own, to) {
        return Reading::Refused(4);
    }
    let peer = address_at(frame, 10);
    if peer == own {
        return Reading::Refused(3);
    }
    if valid(peer) {
        read_from(infrastructure, peer, to, frame)
    } else {
        Reading::Refused(3)
    }
}

// Whether a frame reads as one of those that come most, from a peer, where there are access points.
fn at_once(own: u64, infrastructure: bool, frame: &[u8]) -> bool
    ensures { result ≡ true → read_of own infrastructure frame.now ≡ reading.From (field 6 10 frame.now) (group_of (field 6 4 frame.now)) (sort.Listed (field 1 0 frame.now)) heard.Other }
{
    // Test by test: as one chain of `&&` the check did not prove it.
    if !infrastructure {
        return false;
    }
    if frame.len() < 24 {
        return false;
    }
    if 4096 < frame.len() {
        return false;
    }
    if !common(octet_at(frame, 0)) {
        return false;
    }
    if !for_us(own, address_at(frame, 4)) {
        return false;
    }
    let from = address_at(frame, 10);
    if from == own {
        return false;
    }
    valid(from)
}

// The reading of such a frame.
fn read_common(frame: &[u8]) -> Reading
    ensures { result ≡ reading.From (field 6 10 frame.now) (group_of (field 6 4 frame.now)) (sort.Listed (field 1 0 frame.now)) heard.Other }
{
    Reading::From {
        peer: address_at(frame, 10),
        group: group(address_at(frame, 4)),
        sort: Sort::Listed(octet_at(frame, 0)),
        heard: Heard::Other,
    }
}

// A frame, where there are access points or in an ad hoc network.
pub fn read(own: u64, infrastructure: bool, frame: &[u8]) -> Reading
    ensures { result ≡ read_of own infrastructure frame.now }
{
    if at_once(own, infrastructure, frame) {
        return read_common(frame);
    }
    let shape = measure(frame);
    match shape {
        Shape::Misfit => Reading::Refused(3),
        Shape::Classless => Reading::Discarded,
        Shape::Bare => read_bare(own, frame),
        Shape::Full => read_full(own, infrastructure, frame),
    }
}
