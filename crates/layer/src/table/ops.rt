ghost use Rattle.std.specs.Prelude.{◌≡◌, ◌<◌, true, [], ◌∷◌, ◌==◌, length, position};
ghost use Rattle.layer.specs.Holds.{absent, seventeenth, held_for, placed};
ghost use Rattle.layer.specs.Layers.{held_in};

use super::Table;
use crate::held_write::HeldWrite;
use element::words::Words;

impl Table {
    // A table of none.
    pub(crate) fn new() -> Table
        ensures { held_in result ≡ [] }
    {
        Table {
            writes: [HeldWrite::default(); 16],
            count: 0,
        }
    }

    // How many writes are held.
    pub(crate) fn len(&self) -> usize
        ensures { result ≡ length (held_in self.now) }
    {
        self.count
    }

    // Where cell n is held, or None.
    fn find(&self, n: usize) -> Option<usize>
        ensures { result ≡ position (λ w. w.cell == n) (held_in self.now) }
    {
        self.writes[..self.count].iter().position(|w| w.cell == n)
    }

    // Whether cell n would be a seventeenth.
    pub(crate) fn is_full_for(&self, n: usize) -> bool
        ensures { result ≡ seventeenth n (held_in self.now) }
    {
        let full = self.count == 16;
        full && self.find(n).is_none()
    }

    // What is held for cell n.
    pub(crate) fn words_of(&self, n: usize) -> Option<Words>
        ensures { result ≡ held_for n (held_in self.now) }
    {
        let i = self.find(n)?;
        Some(self.writes[i].words)
    }

    // Holds w in the place of its cell's write, or as the newest, for which there has to be room.
    pub(crate) fn put(&mut self, w: HeldWrite)
        requires { absent w.cell (held_in self.old) ≡ true → length (held_in self.old) < 16 }
        ensures { held_in self.new ≡ placed (held_in self.old) w }
    {
        match self.find(w.cell) {
            Some(i) => self.writes[i] = w,
            None => {
                self.writes[self.count] = w;
                self.count += 1;
            }
        }
    }

    // Takes the longest-held out.
    pub(crate) fn shift(&mut self) -> HeldWrite
        requires { 0 < length (held_in self.old) }
        ensures { held_in self.old ≡ result ∷ held_in self.new }
    {
        let w = self.writes[0];
        self.writes.rotate_left(1);
        self.count -= 1;
        w
    }
}
