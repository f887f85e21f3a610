// The class of a frame: one fixed list by type and subtype.
ghost use Rattle.std.specs.Prelude.{◌≡◌, ◌/◌, ◌%◌, ◌<◌};
ghost use Rattle.octets.specs.Field.{field};
ghost use Rattle.octets.specs.Class.{is_public_action, class_of, class_number, classless, listed_class, named, is_direct, direct_class, class_in};

use crate::field::octet_at;

// Four cases, and no Option of three: each has a number, 0 of none (`number_of`), and `classless` and `named` are of all four.
#[derive(Clone, Copy, PartialEq, Eq)]
pub enum FrameClass {
    // No class: discarded.
    None,
    // Passes in every state.
    One,
    // Passes in State 2 and above.
    Two,
    // Passes in State 3 and above.
    Three,
}

// At 16 * type + subtype: the class of each frame, by the standard's names.
const CLASSES: [FrameClass; 64] = [
    // Type 0, management.
    FrameClass::Two, // 0 association request
    FrameClass::Two, // 1 association response
    FrameClass::Two, // 2 reassociation request
    FrameClass::Two, // 3 reassociation response
    FrameClass::One, // 4 probe request
    FrameClass::One, // 5 probe response
    FrameClass::None, // 6 timing advertisement
    FrameClass::None, // 7 reserved
    FrameClass::One, // 8 beacon
    FrameClass::One, // 9 ATIM
    FrameClass::Two, // 10 disassociation
    FrameClass::One, // 11 authentication
    FrameClass::One, // 12 deauthentication
    FrameClass::Three, // 13 action
    FrameClass::Three, // 14 action, no acknowledgement
    FrameClass::None, // 15 reserved
    // Type 1, control.
    FrameClass::None, // 0 reserved
    FrameClass::None, // 1 reserved
    FrameClass::None, // 2 trigger
    FrameClass::None, // 3 TACK
    FrameClass::None, // 4 beamforming report poll
    FrameClass::None, // 5 NDP announcement
    FrameClass::None, // 6 control frame extension
    FrameClass::None, // 7 control wrapper
    FrameClass::Three, // 8 block acknowledgement request
    FrameClass::Three, // 9 block acknowledgement
    FrameClass::Three, // 10 PS-Poll
    FrameClass::One, // 11 RTS
    FrameClass::One, // 12 CTS
    FrameClass::One, // 13 ACK
    FrameClass::One, // 14 CF-End
    FrameClass::One, // 15 CF-End + CF-ACK
    // Type 2, data.
    FrameClass::Three, // 0 data
    FrameClass::Three, // 1 data + CF-ACK
    FrameClass::Three, // 2 data + CF-Poll
    FrameClass::Three, // 3 data + CF-ACK + CF-Poll
    FrameClass::Three, // 4 null
    FrameClass::Three, // 5 CF-ACK
    FrameClass::Three, // 6 CF-Poll
    FrameClass::Three, // 7 CF-ACK + CF-Poll
    FrameClass::Three, // 8 QoS data
    FrameClass::Three, // 9 QoS data + CF-ACK
    FrameClass::Three, // 10 QoS data + CF-Poll
    FrameClass::Three, // 11 QoS data + CF-ACK + CF-Poll
    FrameClass::Three, // 12 QoS null
    FrameClass::None, // 13 reserved
    FrameClass::Three, // 14 QoS CF-Poll
    FrameClass::Three, // 15 QoS CF-ACK + CF-Poll
    // Type 3, extension.
    FrameClass::None, // 0 DMG beacon
    FrameClass::None, // 1 S1G beacon
    FrameClass::None, // 2 reserved
    FrameClass::None, // 3 reserved
    FrameClass::None, // 4 reserved
    FrameClass::None, // 5 reserved
    FrameClass::None, // 6 reserved
    FrameClass::None, // 7 reserved
    FrameClass::None, // 8 reserved
    FrameClass::None, // 9 reserved
    FrameClass::None, // 10 reserved
    FrameClass::None, // 11 reserved
    FrameClass::None, // 12 reserved
    FrameClass::None, // 13 reserved
    FrameClass::None, // 14 reserved
    FrameClass::None, // 15 reserved
];

// The class at a place of the table.
fn entry(i: usize) -> FrameClass
    requires { i < 64 }
    ensures { result ≡ named (class_number (i / 16) (i % 16)) }
{
    CLASSES[i]
}

// The class in the list, by the type and subtype in the first octet of Frame Control.
pub fn listed(first: u8) -> FrameClass
    ensures { result ≡ listed_class first }
{
    entry((first / 4 % 4 * 16 + first / 16) as usize)
}

// Whether a frame, whose first octet is given, is an unprotected Public Action.
#[tactic(auto, unfolding(crate::specs::Class::is_public_action))]
fn public_action(first: u8, frame: &[u8]) -> bool
    requires { first ≡ field 1 0 frame.now }
    ensures { result ≡ is_public_action frame.now }
{
    first / 4 % 4 == 0
        && first / 16 == 13
        && octet_at(frame, 1) / 64 % 2 == 0
        && 25 <= frame.len() // it has a category
        && octet_at(frame, 24) == 4
}

// The class of a frame, from its octets: none where its version is not 0.
pub fn class(frame: &[u8]) -> FrameClass
    ensures { result ≡ class_of frame.now }
{
    let first = octet_at(frame, 0);
    if first % 4 != 0 {
        return FrameClass::None;
    }
    if public_action(first, frame) {
        return FrameClass::One;
    }
    listed(first)
}

// Whether two stations may send each other a frame without an access point.
#[tactic(auto, unfolding(crate::specs::Class::is_direct))]
fn direct(frame: &[u8]) -> bool
    ensures { result ≡ is_direct frame.now }
{
    let first = octet_at(frame, 0);
    let subtype = first / 16;
    match first / 4 % 4 {
        0 => subtype == 13 || subtype == 14,
        1 => subtype == 8 || subtype == 9,
        _ => octet_at(frame, 1) % 4 == 0,
    }
}

// The class in an ad hoc network, by that of the list.
fn direct_class(frame: &[u8], k: FrameClass) -> FrameClass
    ensures { result ≡ direct_class frame.now k }
{
    if k == FrameClass::Three && direct(frame) {
        FrameClass::One
    } else {
        k
    }
}

// The class of a frame where there are access points, or in an ad hoc network.
pub fn class_in(infrastructure: bool, frame: &[u8]) -> FrameClass
    ensures { result ≡ class_in infrastructure frame.now }
{
    let k = class(frame);
    if infrastructure {
        k
    } else {
        direct_class(frame, k)
    }
}

// Whether a frame has no class.
pub fn is_none(k: FrameClass) -> bool
    ensures { result ≡ classless k }
{
    k == FrameClass::None
}
