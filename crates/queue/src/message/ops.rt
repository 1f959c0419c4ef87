ghost use Rattle.std.specs.Prelude.{◌≡◌, min, [], map, length, take};
ghost use Rattle.queue.specs.Packed.{elements};
ghost use Rattle.queue.specs.Laid.{laid};

use super::{ELEMENTS, Message};
use crate::places::lay;
use element::element::Element;
use element::words::Words;

impl Message {
    // No elements.
    pub(crate) fn empty() -> Message
        ensures { elements result ≡ [] }
    {
        Message {
            words: [Words::ZERO; ELEMENTS],
            len: 0,
        }
    }

    // The first four elements of a list, packed.
    pub(crate) fn of<E: Element>(values: &[E]) -> Message
        ensures { elements result ≡ map E.packed (take 4 values.now) }
    {
        let mut words = Message::empty().words;
        let len = lay(values, &mut words, E::pack);
        Message { words, len }
    }

    // The elements into the first places, as far as there are places; how many were written.
    pub(crate) fn unpack_into<E: Element>(&self, places: &mut [E]) -> usize
        ensures places { places.new ≡ laid (map E.unpacked (elements self.now)) places.old }
        ensures count { result ≡ min (length (elements self.now)) (length places.old) }
    {
        lay(&self.words[..self.len], places, |words| E::unpack(words))
    }
}
