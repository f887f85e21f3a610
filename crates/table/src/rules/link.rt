// Primitive 12's rules: the links of a device. Its octets: device address, count, links.
ghost use Rattle.std.specs.Prelude.{◌≡◌, ◌≤◌, ◌&&◌, not, List, ◌∷◌, eqb, take};
ghost use Rattle.octets.specs.Address.{valid_of};
ghost use Rattle.octets.specs.Links.{links_of};
ghost use Rattle.peer.specs.Turn.{linking_of};
ghost use Rattle.peer.specs.declared.record.Record.{Record as Peer};
ghost use Rattle.table.specs.Fit.{distinct_of};
ghost use Rattle.table.specs.Link.{count_fits, count_in, device_in, link_allowed, link_refusals, linked_at, links_in, may_link, used_elsewhere};
ghost use Rattle.table.specs.Places.{addresses_of, all_of, find_link_of, find_of, is_found};
ghost use Rattle.table.specs.Refusals.{first_of, unless};
ghost use Rattle.table.specs.Seat.{met_of, turn_in};

use crate::rules::distinct::distinct;
use crate::rules::lookup::Lookup;
use crate::rules::seat::{Change, refused, turn_in};
use octets::address::valid;
use octets::field::{address_at, octet_at};
use octets::links::Links;
use peer::record::Record;
use peer::settings::Settings;
use peer::turn::linking;

pub fn device_in(named: &[u8]) -> u64
    ensures { result ≡ device_in named.now }
{
    address_at(named, 0)
}

pub fn count_in(named: &[u8]) -> u8
    ensures { result ≡ count_in named.now }
{
    octet_at(named, 6)
}

// The links, six octets each behind the count; 0 where there are none.
pub fn links_in(named: &[u8]) -> Links
    ensures { result ≡ links_in named.now }
{
    Links {
        one: address_at(named, 7),
        two: address_at(named, 13),
        three: address_at(named, 19),
        four: address_at(named, 25),
    }
}

// Whether there are at most four links, and octets for as many as are counted.
fn count_fits(named: &[u8]) -> bool
    ensures { result ≡ count_fits named.now }
{
    let n = count_in(named);
    n <= 4 && named.len() == 7 + 6 * n as usize
}

// Whether an address is another record's, as a device or as a link.
fn used_elsewhere(at: Option<usize>, device: Option<usize>, link: Option<usize>) -> bool
    ensures { result ≡ used_elsewhere at device link }
{
    device.is_some() || (link.is_some() && at != link)
}

// Whether an address may be a link of the device at a place, by where it is a device's already, and where a link.
pub(crate) fn link_allowed(
    s: Settings,
    at: Option<usize>,
    device: Option<usize>,
    link: Option<usize>,
    l: u64,
) -> bool
    ensures { result ≡ link_allowed s at device link l }
{
    if !valid(l) {
        return false;
    }
    l != s.own && !used_elsewhere(at, device, link)
}

// Whether a device and its links may be named at all, but for what other records use.
pub(crate) fn may_name(s: Settings, named: &[u8], link: Option<usize>) -> bool
    ensures { result ≡ (count_fits named.now && (valid_of (device_in named.now) && (not (eqb (device_in named.now) s.own) && (not (is_found link) && distinct_of (device_in named.now ∷ links_of (links_in named.now)))))) }
{
    if !count_fits(named) {
        return false;
    }
    let a = device_in(named);
    if !valid(a) {
        return false;
    }
    if a == s.own {
        return false;
    }
    if link.is_some() {
        return false;
    }
    let links = links_in(named);
    distinct(&[a, links.one, links.two, links.three, links.four])
}

// The first refusal that applies, of those after 1 and 2; 0 where none does.
// A number, 0 for none, as `first_of` gives it: `linked_at` and `ask_why` go by it, and `Answer` hands it to C.
pub(crate) fn refusal(
    s: Settings,
    free: Option<usize>,
    at: Option<usize>,
    p: Record,
    may: bool,
    count: u8,
) -> u8
    ensures { result ≡ first_of (link_refusals s p may at free count) }
{
    if !may {
        return 3;
    }
    if s.role != Settings::AP {
        return 5;
    }
    if p.state != Record::STATE_1 {
        return 7;
    }
    if count == 0 {
        return 0; // needs no place
    }
    if at.is_some() {
        return 0;
    }
    if free.is_some() { 0 } else { 6 }
}

// Links named for a device that was found at a place, or nowhere, with the lowest free place.
pub(crate) fn linked_at(
    s: Settings,
    free: Option<usize>,
    at: Option<usize>,
    p: Record,
    may: bool,
    count: u8,
    links: Links,
) -> Change
    ensures { (t : List Peer) → met_of t result ≡ unless (first_of (link_refusals s p may at free count)) t (turn_in t at free (linking_of s p links) (linking_of s p links)) }
{
    let n = refusal(s, free, at, p, may, count);
    if n != 0 {
        return refused(n);
    }
    let turn = linking(s, p, links);
    // The other turn is not needed: without a free place refusal 6 came first.
    turn_in(free, at, turn, turn)
}

// Whether the first links may be those of the device at a place.
fn links_allowed<T: Lookup>(
    s: Settings,
    t: T,
    at: Option<usize>,
    links: Links,
    count: usize,
) -> bool
    requires { count ≤ 4 }
    ensures { T.sound t → result ≡ all_of (λ l. link_allowed s at (find_of (addresses_of (T.records t)) l) (find_link_of (T.records t) l) l) (take count (links_of links)) }
{
    for j in 0..count {
        let l = links.at(j);
        if !link_allowed(s, at, t.find(l), t.find_link(l), l) {
            return false;
        }
    }
    true
}

pub(crate) fn may_link<T: Lookup>(s: Settings, t: T, at: Option<usize>, named: &[u8]) -> bool
    ensures { T.sound t → result ≡ may_link s (T.records t) (addresses_of (T.records t)) at named.now }
{
    if !may_name(s, named, t.find_link(device_in(named))) {
        return false;
    }
    let count = count_in(named);
    // Never so: `may_name` counted.
    if 4 < count {
        return false;
    }
    links_allowed(s, t, at, links_in(named), count as usize)
}

// Links named, over a table.
pub(crate) fn named_at<T: Lookup>(s: Settings, t: T, named: &[u8]) -> Change
    ensures { T.sound t → met_of (T.records t) result ≡ linked_at s (T.records t) (addresses_of (T.records t)) named.now }
{
    let device = device_in(named);
    let at = t.find(device);
    linked_at(
        s,
        t.vacancy(at),
        at,
        t.peer_at(at, device),
        may_link(s, t, at, named),
        count_in(named),
        links_in(named),
    )
}
