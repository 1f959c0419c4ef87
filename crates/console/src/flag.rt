ghost use Rattle.std.specs.Prelude.{◌≡◌};
ghost use Rattle.console.specs.Flags.{flag_of};

// The options that stand before the files.
#[derive(Clone, Copy)]
pub enum Flag {
    // The log goes to the file that the next word names.
    Log,
    // What is left for the part that the next word names is played on a host of its own.
    Solo,
}

impl Flag {
    // The option that a word names. A word that names none is no fault, so no error is made of it.
    pub fn of(word: &str) -> Option<Flag>
        ensures { result ≡ flag_of word.now }
    {
        match word {
            "--log" => Some(Flag::Log),
            "--solo" => Some(Flag::Solo),
            _ => None,
        }
    }
}
