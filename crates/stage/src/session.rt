// What a run of several shows keeps.
ghost use Rattle.stage.specs.Sessions.{Begun, Turned};

use command::log::LogRecord;
use std::alloc::Global;

// How many commands were left for a part, and how many of them were answered as they were before.
#[derive(Clone, Copy, PartialEq, Eq, Debug, Default)]
pub struct Tally {
    pub left: usize,
    pub alike: usize,
}

// What is played, the logs of the shows in their order, and the tally of what was left.
#[derive(Drop)]
pub struct Session {
    // The part for which only what is left is played; with none, every command is.
    pub solo: Option<u8>,
    pub logs: Vec<Vec<LogRecord>>,
    pub tally: Tally,
}

impl Session {
    // A session of whole shows.
    pub fn new(heap: Global) -> Session
        ensures { Begun result }
    {
        Session {
            solo: None,
            logs: Vec::new(heap),
            tally: Tally::default(),
        }
    }

    // From now on only what the logs leave for this part is played.
    pub fn leave(&mut self, part: u8)
        ensures { Turned self.old self.new part }
    {
        self.solo = Some(part);
        self.tally = Tally::default();
    }
}
