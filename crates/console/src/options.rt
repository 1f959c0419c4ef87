// The words of the command line.
ghost use Rattle.std.specs.Prelude.{◌≡◌, string_bytes};
ghost use Rattle.console.specs.Flags.{flag_of};
ghost use Rattle.console.specs.CommandLine.{part_of, with, word_of, option_in, ended, options_of, read_in};

use crate::fault::Fault;
use crate::flag::Flag;
use crate::front::Front;
use setup::number::number;
use std::alloc::Global;
use std::collections::VecDeque;

// What the command line asks.
#[derive(Drop)]
pub struct Options {
    // Where the log goes.
    pub log: Option<String>,
    // The part that is played alone.
    pub solo: Option<u8>,
    // The setup's path.
    pub setup: String,
    // The paths of the shows, at least one.
    pub shows: Vec<String>,
}

// The part that a word names.
fn part(word: &str) -> Result<u8, Fault>
    ensures { result ≡ part_of word.now }
{
    let part = number(word.as_bytes(), 7).map_err(|_| Fault::Part)?;
    Ok(part as u8)
}

// The next word, which has to be there.
fn next_word(words: &mut VecDeque<String>) -> Result<String, Fault>
    ensures { with result words.new.items ≡ word_of words.old.items }
{
    words.pop_front().ok_or(Fault::Usage)
}

// The option that stands in the setup's place, if there is one, and then the next word in that place. Each option stands
// at most once.
fn take_option(mut front: Front, words: &mut VecDeque<String>) -> Result<Front, Fault>
    ensures { with result words.new.items ≡ option_in front words.old.items }
{
    match Flag::of(front.setup.as_str()) {
        None => return Ok(front),
        Some(Flag::Log) if front.log.is_none() => front.log = Some(next_word(words)?),
        Some(Flag::Solo) if front.solo.is_none() => {
            front.solo = Some(part(next_word(words)?.as_str())?);
        }
        Some(_) => return Err(Fault::Usage),
    }
    front.setup = next_word(words)?;
    Ok(front)
}

// The options with the shows behind them.
fn finish(front: Front, shows: Vec<String>) -> Result<Options, Fault>
    ensures { read_in result ≡ ended (flag_of (string_bytes front.setup)) front shows.items }
{
    if Flag::of(front.setup.as_str()).is_some() || shows.is_empty() {
        return Err(Fault::Usage);
    }
    let Front { log, solo, setup } = front;
    Ok(Options {
        log,
        solo,
        setup,
        shows,
    })
}

impl Options {
    // [--log OUT] [--solo PART] SETUP SHOW.., the options in either order; without the program's own name.
    pub fn read(heap: Global, words: Vec<String>) -> Result<Options, Fault>
        ensures { read_in result ≡ options_of words.items }
    {
        // The words are moved, so nothing is allocated.
        let _ = heap;
        let mut words = VecDeque::from(words);
        let setup = next_word(&mut words)?;
        let bare = Front {
            log: None,
            solo: None,
            setup,
        };
        let once = take_option(bare, &mut words)?;
        let twice = take_option(once, &mut words)?;
        finish(twice, Vec::from(words))
    }
}
