// Blocks read back from their printed form, octet by octet: a line `file ..` or `all` may stand before each, and the mean is passed over.
ghost use Rattle.std.specs.Prelude.{◌≡◌};
ghost use Rattle.sums.specs.Reader.{heading_of, line_from, start_of, staged, fault_of, word_blank, word_line, number_blank, number_line, with_octet, next_of};

use crate::place::{last_of_line, line_after, opens_line, place_after};
use crate::token::{Token, is_word, no_token, number_of, token_with};

// Where in a line the reader is: in its word, in a number, in a line that is passed over; or behind a line that is of no block.
#[derive(Clone, Copy)]
pub enum Stage {
    Word,
    Number,
    Rest,
    Fault,
}

#[derive(Clone, Copy)]
pub struct Reader {
    pub stage: Stage,
    // The place of the number that is read, or, at a line's beginning, of its first.
    // A number: `place_after` counts it on, and it is the block's index.
    pub place: u8,
    pub token: Token,
    // The lines so far, this one too.
    pub line: u64,
}

// At the beginning of a line.
fn line_from(place: u8, line: u64) -> Reader
    ensures { result ≡ line_from place line }
{
    Reader {
        stage: Stage::Word,
        place,
        token: no_token(),
        line,
    }
}

// Before the first octet.
pub fn start() -> Reader
    ensures { result ≡ start_of }
{
    line_from(0, 1)
}

impl Reader {
    // In another stage, at a place, with no octet of a token yet.
    fn staged(self, stage: Stage, place: u8) -> Reader
        ensures { result ≡ staged stage place self }
    {
        Reader {
            stage,
            place,
            token: no_token(),
            ..self
        }
    }

    // Behind a line that is of no block.
    fn fault(self) -> Reader
        ensures { result ≡ fault_of self }
    {
        self.staged(Stage::Fault, self.place)
    }

    // Whether the token is the word of a heading, which stands before a block only.
    #[tactic(auto, using(octets::proofs::Branch::tests), unfolding(crate::specs::Reader::heading_of))]
    fn is_heading(self, seen: u8, word: u64) -> bool
        ensures { result ≡ heading_of self.place self.token seen word }
    {
        self.place == 0 && is_word(self.token, seen, word)
    }

    // A line's word, and a blank.
    #[tactic(auto, using(octets::proofs::Branch::tests), unfolding(crate::specs::Reader::word_blank))]
    fn word_blank(self) -> Reader
        ensures { result ≡ word_blank self }
    {
        // "file"
        if self.is_heading(4, 1718185061) {
            return self.staged(Stage::Rest, 0);
        }
        if !opens_line(self.place, self.token) {
            return self.fault();
        }
        let stage = if self.place == 23 {
            Stage::Rest
        } else {
            Stage::Number
        };
        self.staged(stage, self.place)
    }

    // A line's word, and its end.
    #[tactic(auto, using(octets::proofs::Branch::tests), unfolding(crate::specs::Reader::word_line))]
    fn word_line(self) -> Reader
        ensures { result ≡ word_line self }
    {
        // "all"
        if self.is_heading(3, 6384748) {
            line_from(0, line_after(self.line))
        } else {
            self.fault()
        }
    }

    // A number, and a blank.
    #[tactic(auto, using(octets::proofs::Branch::tests), unfolding(crate::specs::Reader::number_blank))]
    fn number_blank(self) -> Reader
        ensures { result ≡ number_blank self }
    {
        if number_of(self.token).is_some() && !last_of_line(self.place) {
            self.staged(Stage::Number, place_after(self.place))
        } else {
            self.fault()
        }
    }

    // A number, and the line's end.
    #[tactic(auto, using(octets::proofs::Branch::tests), unfolding(crate::specs::Reader::number_line))]
    fn number_line(self) -> Reader
        ensures { result ≡ number_line self }
    {
        if number_of(self.token).is_some() && last_of_line(self.place) {
            line_from(place_after(self.place), line_after(self.line))
        } else {
            self.fault()
        }
    }

    // An octet of a token.
    fn with_octet(self, x: u8) -> Reader
        ensures { result ≡ with_octet self x }
    {
        Reader {
            token: token_with(self.token, x),
            ..self
        }
    }

    // One octet more.
    #[tactic(auto, using(octets::proofs::Branch::tests), unfolding(crate::specs::Reader::next_of))]
    pub(crate) fn next(self, x: u8) -> Reader
        ensures { result ≡ next_of self x }
    {
        match (self.stage, x) {
            (Stage::Word, b'\n') => self.word_line(),
            (Stage::Word, b' ') => self.word_blank(),
            (Stage::Number, b'\n') => self.number_line(),
            (Stage::Number, b' ') => self.number_blank(),
            (Stage::Word | Stage::Number, _) => self.with_octet(x),
            (Stage::Rest, b'\n') => line_from(0, line_after(self.line)),
            (Stage::Rest | Stage::Fault, _) => self,
        }
    }
}
