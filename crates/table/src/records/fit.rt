// Whether settings and table are well formed, by what is found of the places.
ghost use Rattle.std.specs.Prelude.{◌≡◌, ◌&&◌, ◌||◌, leb};
ghost use Rattle.peer.specs.Fit.{place_fits};
ghost use Rattle.peer.specs.Settings.{role_answers, settings_fit};
ghost use Rattle.table.specs.Places.{all_of, addresses_of, link_addresses_of};
ghost use Rattle.table.specs.Others.{associated_of};
ghost use Rattle.table.specs.Fit.{crowd_of, distinct_of, links_apart, well_formed};

use crate::records::apart::links_apart;
use crate::records::play::addresses_of;
use crate::rules::distinct::distinct;
use crate::rules::others::{Counts, sparse};
use peer::fit::place_fits;
use peer::record::Record;
use peer::settings::Settings;

// What is found of the places.
#[derive(Clone, Copy)]
pub struct View {
    // Whether each place fits by itself.
    pub fit: bool,
    pub crowd: Counts,
    // The address of the first record in State 3 or 4, or 0.
    pub associated: u64,
    pub addresses: [u64; 32],
}

pub fn survey(s: Settings, t: [Record; 32]) -> View
    ensures { (result.fit ≡ all_of (place_fits s) t) × (result.crowd ≡ crowd_of t) × (result.associated ≡ associated_of t) × (result.addresses ≡ addresses_of t) }
{
    View {
        fit: t.iter().all(|p| place_fits(s, *p)),
        crowd: Counts {
            joined: t.iter().filter(|p| p.is_joined()).count(),
            associating: t.iter().filter(|p| p.is_associating()).count(),
        },
        associated: t.iter().find(|p| p.is_joined()).map_or(0, |p| p.address),
        addresses: addresses_of(t),
    }
}

// Whether all is well formed, by what was found of the places.
// The parts one by one: this is public and takes any.
pub fn well(s: Settings, t: [Record; 32], fit: bool, crowd: Counts, addresses: &[u64]) -> bool
    ensures { result ≡ (settings_fit s && (fit && (distinct_of addresses.now && (links_apart (link_addresses_of t) addresses.now && (role_answers s.role || (leb crowd.joined 1 && leb crowd.associating 1)))))) }
{
    s.fit() && fit && distinct(addresses) && links_apart(t, addresses) && sparse(s, crowd)
}

pub fn well_formed(s: Settings, t: [Record; 32]) -> bool
    ensures { result ≡ well_formed s t }
{
    let v = survey(s, t);
    let addresses = v.addresses;
    well(s, t, v.fit, v.crowd, &addresses)
}
