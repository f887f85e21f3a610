// The elements of a (re)association response: id, length, contents, one after the other from octet 30 on.
ghost use Rattle.std.specs.Prelude.{◌≡◌, ◌∷◌, ◌++◌, true, MatchOption, length, drop};
ghost use Rattle.octets.specs.Element.{is_comeback, is_cut, comeback_of, ends, is_response, broken_of};

use crate::field::{octet_at, u32_at};

// The octets after octet 29.
fn elements(frame: &[u8]) -> &[u8]
    ensures { result.now ≡ drop 30 frame.now }
{
    if frame.len() < 30 { &[] } else { &frame[30..] }
}

// The id and the contents of the element that octets begin with, and what stands behind it; none where no whole element stands there.
fn split_element(s: &[u8]) -> Option<(u8, &[u8], &[u8])>
    ensures { MatchOption result (is_cut s.now ≡ true) (λ e. s.now ≡ e.0 ∷ length e.1.now ∷ (e.1.now ++ e.2.now)) }
{
    let [id, size, rest @ ..] = s else {
        return None; // an id without a length, or no octet
    };
    let (contents, behind) = rest.split_at_checked(usize::from(*size))?;
    Some((*id, contents, behind))
}

// Whether an element has id 56, length 5 and type 3.
fn is_comeback(id: u8, contents: &[u8]) -> bool
    ensures { result ≡ is_comeback id contents.now }
{
    id == 56 && contents.len() == 5 && contents[0] == 3
}

// The value of the first element of id 56, length 5 and type 3 after octet 29: the time in TU after which a rejected station may ask again.
// 0 is a time: it may ask at once.
pub fn first_comeback(s: &[u8]) -> Option<u32>
    ensures { result ≡ comeback_of s.now }
{
    let mut rest = elements(s);
    while let Some((id, contents, behind)) = split_element(rest) {
        if is_comeback(id, contents) {
            return Some(u32_at(contents, 1));
        }
        rest = behind;
    }
    None
}

// Whether the elements after octet 29 end with the frame.
fn whole(s: &[u8]) -> bool
    ensures { result ≡ ends (drop 30 s.now) 0 }
{
    let mut rest = elements(s);
    while let Some((_, _, behind)) = split_element(rest) {
        rest = behind;
    }
    rest.is_empty()
}

// Whether a frame is a (re)association response, by its first octet.
#[tactic(auto, unfolding(crate::specs::Element::is_response))]
fn response(first: u8) -> bool
    ensures { result ≡ is_response first }
{
    first / 4 % 4 == 0 && (first / 16 == 1 || first / 16 == 3)
}

// Whether a frame is a (re)association response whose elements do not end with it.
#[tactic(auto, unfolding(crate::specs::Element::broken_of))]
pub fn broken(frame: &[u8]) -> bool
    ensures { result ≡ broken_of frame.now }
{
    response(octet_at(frame, 0)) && !whole(frame)
}
