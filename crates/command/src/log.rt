ghost use Rattle.std.specs.Prelude.{◌≡◌};
ghost use Rattle.command.specs.Answers.{logged};

use crate::refusal::Refusal;

// The values that work gave: how many, and their packed words, unused ones zero; before them a queue missed so many.
// A count and eight words, as a log record has them.
#[derive(Clone, Copy)]
pub struct Values {
    pub missed: u8,
    pub count: u8,
    pub words: [u32; 8],
}

// What a command is answered: a restore or a save is done and gives nothing, work is done and gave values, or a refusal.
pub type Answer = Result<Option<Values>, Refusal>;

// One record of the log: what was asked, and the answer. C reads it, so a kind and a refusal are numbers here.
#[repr(C)]
#[derive(Clone, Copy, PartialEq, Eq, Debug)]
pub struct LogRecord {
    pub place: u32,
    pub part: u8,
    pub kind: u8,
    pub refusal: u8,
    pub detail: u8,
    pub missed: u8,
    pub count: u8,
    pub words: [u32; 8],
}

impl LogRecord {
    // The record of an answer.
    pub fn new(place: u32, part: u8, kind: u8, answer: Answer) -> LogRecord
        ensures { result ≡ logged place part kind answer }
    {
        let blank = LogRecord {
            place,
            part,
            kind,
            refusal: 0,
            detail: 0,
            missed: 0,
            count: 0,
            words: [0; 8],
        };
        match answer {
            Ok(None) => blank,
            Ok(Some(values)) => {
                let words = values.words;
                LogRecord {
                    missed: values.missed,
                    count: values.count,
                    words,
                    ..blank
                }
            }
            Err(why) => LogRecord {
                refusal: why.number(),
                detail: why.detail(),
                ..blank
            },
        }
    }
}
