// The class filter as a table of 256 verdicts: where there are access points, and Frame Control alone decides a frame's class, one look takes
// the place of a branch for the class and one for the state.
ghost use Rattle.std.specs.Prelude.{◌≡◌, ◌+◌, ◌*◌, ◌/◌, ◌%◌, ◌<◌, ◌≤◌};
ghost use Rattle.octets.specs.Class.{listed_class};
ghost use Rattle.octets.specs.Sort.{class_by};
ghost use Rattle.peer.specs.Filter.{passes_of};
ghost use Rattle.peer.specs.Verdict.{verdict_of};

use crate::filter::passes;
use crate::record::Record;
use crate::settings::associates;
use octets::class::listed;
use octets::sort::Sort;

// The table is of numbers, as document 02 (K3) names it.
// The verdict's number of a frame that passes. 0: it has no class; 2: it does not pass.
const PASSES: u8 = 1;

// At 64 * (state - 1) + 4 * subtype + type, type and subtype as they stand in Frame Control.
const VERDICTS: [u8; 256] = [
    // State 1.
    2, // management 0, association request
    0, // control 0
    2, // data 0, data
    0, // extension 0, DMG beacon
    2, // management 1, association response
    0, // control 1
    2, // data 1, data + CF-ACK
    0, // extension 1, S1G beacon
    2, // management 2, reassociation request
    0, // control 2, trigger
    2, // data 2, data + CF-Poll
    0, // extension 2
    2, // management 3, reassociation response
    0, // control 3, TACK
    2, // data 3, data + CF-ACK + CF-Poll
    0, // extension 3
    1, // management 4, probe request
    0, // control 4, beamforming report poll
    2, // data 4, null
    0, // extension 4
    1, // management 5, probe response
    0, // control 5, NDP announcement
    2, // data 5, CF-ACK
    0, // extension 5
    0, // management 6, timing advertisement
    0, // control 6, control frame extension
    2, // data 6, CF-Poll
    0, // extension 6
    0, // management 7
    0, // control 7, control wrapper
    2, // data 7, CF-ACK + CF-Poll
    0, // extension 7
    1, // management 8, beacon
    2, // control 8, block acknowledgement request
    2, // data 8, QoS data
    0, // extension 8
    1, // management 9, ATIM
    2, // control 9, block acknowledgement
    2, // data 9, QoS data + CF-ACK
    0, // extension 9
    2, // management 10, disassociation
    2, // control 10, PS-Poll
    2, // data 10, QoS data + CF-Poll
    0, // extension 10
    1, // management 11, authentication
    1, // control 11, RTS
    2, // data 11, QoS data + CF-ACK + CF-Poll
    0, // extension 11
    1, // management 12, deauthentication
    1, // control 12, CTS
    2, // data 12, QoS null
    0, // extension 12
    2, // management 13, action
    1, // control 13, ACK
    0, // data 13
    0, // extension 13
    2, // management 14, action, no acknowledgement
    1, // control 14, CF-End
    2, // data 14, QoS CF-Poll
    0, // extension 14
    0, // management 15
    1, // control 15, CF-End + CF-ACK
    2, // data 15, QoS CF-ACK + CF-Poll
    0, // extension 15
    // State 2.
    1, // management 0, association request
    0, // control 0
    2, // data 0, data
    0, // extension 0, DMG beacon
    1, // management 1, association response
    0, // control 1
    2, // data 1, data + CF-ACK
    0, // extension 1, S1G beacon
    1, // management 2, reassociation request
    0, // control 2, trigger
    2, // data 2, data + CF-Poll
    0, // extension 2
    1, // management 3, reassociation response
    0, // control 3, TACK
    2, // data 3, data + CF-ACK + CF-Poll
    0, // extension 3
    1, // management 4, probe request
    0, // control 4, beamforming report poll
    2, // data 4, null
    0, // extension 4
    1, // management 5, probe response
    0, // control 5, NDP announcement
    2, // data 5, CF-ACK
    0, // extension 5
    0, // management 6, timing advertisement
    0, // control 6, control frame extension
    2, // data 6, CF-Poll
    0, // extension 6
    0, // management 7
    0, // control 7, control wrapper
    2, // data 7, CF-ACK + CF-Poll
    0, // extension 7
    1, // management 8, beacon
    2, // control 8, block acknowledgement request
    2, // data 8, QoS data
    0, // extension 8
    1, // management 9, ATIM
    2, // control 9, block acknowledgement
    2, // data 9, QoS data + CF-ACK
    0, // extension 9
    1, // management 10, disassociation
    2, // control 10, PS-Poll
    2, // data 10, QoS data + CF-Poll
    0, // extension 10
    1, // management 11, authentication
    1, // control 11, RTS
    2, // data 11, QoS data + CF-ACK + CF-Poll
    0, // extension 11
    1, // management 12, deauthentication
    1, // control 12, CTS
    2, // data 12, QoS null
    0, // extension 12
    2, // management 13, action
    1, // control 13, ACK
    0, // data 13
    0, // extension 13
    2, // management 14, action, no acknowledgement
    1, // control 14, CF-End
    2, // data 14, QoS CF-Poll
    0, // extension 14
    0, // management 15
    1, // control 15, CF-End + CF-ACK
    2, // data 15, QoS CF-ACK + CF-Poll
    0, // extension 15
    // State 3.
    1, // management 0, association request
    0, // control 0
    1, // data 0, data
    0, // extension 0, DMG beacon
    1, // management 1, association response
    0, // control 1
    1, // data 1, data + CF-ACK
    0, // extension 1, S1G beacon
    1, // management 2, reassociation request
    0, // control 2, trigger
    1, // data 2, data + CF-Poll
    0, // extension 2
    1, // management 3, reassociation response
    0, // control 3, TACK
    1, // data 3, data + CF-ACK + CF-Poll
    0, // extension 3
    1, // management 4, probe request
    0, // control 4, beamforming report poll
    1, // data 4, null
    0, // extension 4
    1, // management 5, probe response
    0, // control 5, NDP announcement
    1, // data 5, CF-ACK
    0, // extension 5
    0, // management 6, timing advertisement
    0, // control 6, control frame extension
    1, // data 6, CF-Poll
    0, // extension 6
    0, // management 7
    0, // control 7, control wrapper
    1, // data 7, CF-ACK + CF-Poll
    0, // extension 7
    1, // management 8, beacon
    1, // control 8, block acknowledgement request
    1, // data 8, QoS data
    0, // extension 8
    1, // management 9, ATIM
    1, // control 9, block acknowledgement
    1, // data 9, QoS data + CF-ACK
    0, // extension 9
    1, // management 10, disassociation
    1, // control 10, PS-Poll
    1, // data 10, QoS data + CF-Poll
    0, // extension 10
    1, // management 11, authentication
    1, // control 11, RTS
    1, // data 11, QoS data + CF-ACK + CF-Poll
    0, // extension 11
    1, // management 12, deauthentication
    1, // control 12, CTS
    1, // data 12, QoS null
    0, // extension 12
    1, // management 13, action
    1, // control 13, ACK
    0, // data 13
    0, // extension 13
    1, // management 14, action, no acknowledgement
    1, // control 14, CF-End
    1, // data 14, QoS CF-Poll
    0, // extension 14
    0, // management 15
    1, // control 15, CF-End + CF-ACK
    1, // data 15, QoS CF-ACK + CF-Poll
    0, // extension 15
    // State 4.
    1, // management 0, association request
    0, // control 0
    1, // data 0, data
    0, // extension 0, DMG beacon
    1, // management 1, association response
    0, // control 1
    1, // data 1, data + CF-ACK
    0, // extension 1, S1G beacon
    1, // management 2, reassociation request
    0, // control 2, trigger
    1, // data 2, data + CF-Poll
    0, // extension 2
    1, // management 3, reassociation response
    0, // control 3, TACK
    1, // data 3, data + CF-ACK + CF-Poll
    0, // extension 3
    1, // management 4, probe request
    0, // control 4, beamforming report poll
    1, // data 4, null
    0, // extension 4
    1, // management 5, probe response
    0, // control 5, NDP announcement
    1, // data 5, CF-ACK
    0, // extension 5
    0, // management 6, timing advertisement
    0, // control 6, control frame extension
    1, // data 6, CF-Poll
    0, // extension 6
    0, // management 7
    0, // control 7, control wrapper
    1, // data 7, CF-ACK + CF-Poll
    0, // extension 7
    1, // management 8, beacon
    1, // control 8, block acknowledgement request
    1, // data 8, QoS data
    0, // extension 8
    1, // management 9, ATIM
    1, // control 9, block acknowledgement
    1, // data 9, QoS data + CF-ACK
    0, // extension 9
    1, // management 10, disassociation
    1, // control 10, PS-Poll
    1, // data 10, QoS data + CF-Poll
    0, // extension 10
    1, // management 11, authentication
    1, // control 11, RTS
    1, // data 11, QoS data + CF-ACK + CF-Poll
    0, // extension 11
    1, // management 12, deauthentication
    1, // control 12, CTS
    1, // data 12, QoS null
    0, // extension 12
    1, // management 13, action
    1, // control 13, ACK
    0, // data 13
    0, // extension 13
    1, // management 14, action, no acknowledgement
    1, // control 14, CF-End
    1, // data 14, QoS CF-Poll
    0, // extension 14
    0, // management 15
    1, // control 15, CF-End + CF-ACK
    1, // data 15, QoS CF-ACK + CF-Poll
    0, // extension 15
];

// The verdict at a place of the table.
#[tactic(auto, unfolding(crate::specs::Verdict::verdict_of))]
fn entry(i: usize) -> u8
    requires { i < 256 }
    ensures { result ≡ verdict_of (listed_class (i % 64 * 4)) (i / 64 + 1) }
{
    VERDICTS[i]
}

// The verdict in a state, by Frame Control's first octet.
#[tactic(auto, using(crate::proofs::Verdicts::place_gives))]
fn verdict(first: u8, state: u8) -> u8
    requires { (1 ≤ state) × (state ≤ 4) }
    ensures { result ≡ verdict_of (listed_class first) state }
{
    entry(64 * (state as usize - 1) + first as usize / 4)
}

// Whether a frame of the list passes. The table is not asked in an ad hoc network, nor in a state that no well-formed record has.
#[tactic(auto, using(crate::proofs::Verdicts::passes_verdict))]
fn passes_listed(role: u8, first: u8, state: u8) -> bool
    ensures { result ≡ passes_of role (listed_class first) state }
{
    if associates(role) && Record::STATE_1 <= state && state <= Record::STATE_4 {
        verdict(first, state) == PASSES
    } else {
        passes(role, listed(first), state)
    }
}

// Whether a frame passes, by how its class is known.
pub fn passes_by(role: u8, sort: Sort, state: u8) -> bool
    ensures { result ≡ passes_of role (class_by sort) state }
{
    match sort {
        Sort::Listed(first) => passes_listed(role, first, state),
        Sort::Classed(k) => passes(role, k, state),
    }
}
