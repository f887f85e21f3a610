// What stands between two blanks, octet by octet: as a word of at most eight octets, and as a number of 64 bits.
ghost use Rattle.std.specs.Prelude.{◌≡◌, ◌+◌, ◌*◌, ◌-◌, None, Some};
ghost use Rattle.octets.specs.Pick.{pick};
ghost use Rattle.sums.specs.Token.{no_token, digit_fits, word_with, seen_with, token_with, is_packed, number_of};

use crate::total::Total;

#[derive(Clone, Copy)]
pub struct Token {
    // The octets, the first one highest: eight at most, so they need no memory of their own.
    pub word: u64,
    // How many they are; 9 where they are more than eight.
    pub seen: u8,
    // Their value in decimal, where each is a digit and 64 bits hold it.
    pub value: u64,
    // Whether that is so. Value and flag, and no Option: `token_with`, `is_word` and `number_of` are public, and promise for each pair of the two.
    pub fits: bool,
}

// No octet yet.
pub fn no_token() -> Token
    ensures { result ≡ no_token }
{
    Token {
        word: 0,
        seen: 0,
        value: 0,
        fits: true,
    }
}

#[tactic(auto, using(octets::proofs::Branch::tests), unfolding(crate::specs::Token::word_with))]
fn word_with(word: u64, x: u8) -> u64
    ensures { result ≡ word_with word x }
{
    if word < 72057594037927936 {
        word * 256 + x as u64
    } else {
        word
    }
}

#[tactic(auto, using(octets::proofs::Branch::tests), unfolding(crate::specs::Token::seen_with))]
fn seen_with(seen: u8) -> u8
    ensures { result ≡ seen_with seen }
{
    if seen < 9 { seen + 1 } else { seen }
}

// The value with x behind, where x is a digit and 64 bits hold it.
#[tactic(auto, using(octets::proofs::Branch::tests), unfolding(crate::specs::Token::digit_fits))]
fn value_more(value: u64, x: u8) -> Option<u64>
    ensures { result ≡ pick (digit_fits value x) (Some (value * 10 + (x - 48))) None }
{
    if !x.is_ascii_digit() {
        return None;
    }
    value.checked_mul(10)?.checked_add((x - b'0') as u64)
}

// The token with an octet more.
#[tactic(auto, using(octets::proofs::Branch::tests), unfolding(crate::specs::Token::token_with, crate::specs::Token::value_with))]
pub fn token_with(t: Token, x: u8) -> Token
    ensures { result ≡ token_with t x }
{
    let more = value_more(t.value, x);
    Token {
        word: word_with(t.word, x),
        seen: seen_with(t.seen),
        value: more.unwrap_or(t.value),
        fits: t.fits && more.is_some(),
    }
}

// Whether a token is the word of so many octets.
#[tactic(auto, using(octets::proofs::Branch::tests), unfolding(crate::specs::Token::is_packed))]
pub fn is_word(t: Token, seen: u8, word: u64) -> bool
    ensures { result ≡ is_packed t seen word }
{
    t.seen == seen && t.word == word
}

// The number that a token is; None where it is neither a number nor `over`.
#[tactic(auto, using(octets::proofs::Branch::tests), unfolding(crate::specs::Token::number_of))]
pub fn number_of(t: Token) -> Option<Total>
    ensures { result ≡ number_of t }
{
    if t.seen == 0 {
        return None;
    }
    if t.fits {
        return Some(Some(t.value));
    }
    // "over"
    is_word(t, 4, 1870030194).then_some(None)
}
