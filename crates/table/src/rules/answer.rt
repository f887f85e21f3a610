// The answer to an event: numbers only, as they cross to a host; and the table with it.
ghost use Rattle.std.specs.Prelude.{◌≡◌};
ghost use Rattle.peer.specs.Turn.{admit};
ghost use Rattle.table.specs.Answer.{refusal_answer, verdict_answer, turn_answer, count_answer};

use peer::record::Record;
use peer::reply::Reply;
use peer::turn::Turn;

// Numbers and no enums: this is what crosses to C, and `refusal` and `verdict` promise for any number.
#[repr(C)]
#[derive(Clone, Copy)]
pub struct Answer {
    // The current AP of a reassociation's indication, else 0.
    pub current: u64,
    pub code: u16,
    // Octets written to the output buffer.
    pub written: u16,
    pub refusal: u8,
    // 0 none, 1 admit, 2 discard.
    pub verdict: u8,
    pub notice: u8,
    // 0 nothing, 1 joined, 2 left.
    pub ds: u8,
    // The peer's state after the event, 0 if refused or without record or peer.
    pub state: u8,
}

// A table after an event, and the answer.
#[derive(Clone, Copy)]
pub struct Stepped {
    pub table: [Record; 32],
    pub answer: Answer,
}

// The same before the reply is written.
// Another type than `Stepped`: definitions of what an event does give a `Met`, those of what a caller sees a `Stepped`.
#[derive(Clone, Copy)]
pub struct Met {
    pub table: [Record; 32],
    pub answer: Answer,
    pub reply: Reply,
}

impl Answer {
    // Nothing refused, and nothing told.
    const NOTHING: Answer = Answer {
        current: 0,
        code: 0,
        written: 0,
        refusal: 0,
        verdict: 0,
        notice: 0,
        ds: 0,
        state: 0,
    };

    // A refusal: its number, and everything else zero.
    pub fn refusal(number: u8) -> Answer
        ensures { result ≡ refusal_answer number }
    {
        Answer {
            refusal: number,
            ..Self::NOTHING
        }
    }

    // A verdict on a frame that names no peer.
    pub fn verdict(verdict: u8) -> Answer
        ensures { result ≡ verdict_answer verdict }
    {
        Answer {
            verdict,
            ..Self::NOTHING
        }
    }

    // A frame of a peer that is admitted, with the state to show; nothing else is told.
    pub fn admitted(state: u8) -> Answer
        ensures { result ≡ record { current = 0; code = 0; written = 0; refusal = 0; verdict = admit; notice = 0; ds = 0; state = state } }
    {
        Answer {
            state,
            ..Self::verdict(Turn::ADMIT)
        }
    }

    // What a turn tells, with the state to show.
    pub fn turn(t: Turn, state: u8) -> Answer
        ensures { result ≡ turn_answer t state }
    {
        Answer {
            current: t.told.current,
            code: t.told.code,
            verdict: t.verdict,
            notice: t.told.notice,
            ds: t.ds,
            state,
            ..Self::NOTHING
        }
    }

    // The answer with the count of octets written.
    pub fn count(self, written: u16) -> Answer
        ensures { result ≡ count_answer self written }
    {
        Answer { written, ..self }
    }
}
