ghost use Rattle.std.specs.Prelude.{◌≡◌, ℕ, ◌/◌, [], ◌∷◌, length};
ghost use Rattle.store.specs.Meaning.{Reads, Writes};
ghost use Rattle.store.specs.Packing.{elements, rewritten};

use crate::fault::StoreFault;
use crate::store::Store;
use element::element::Element;
use element::words::Words;
use std::marker::PhantomData;

fn read_pair<E: Element>(words: &mut [u32], n: usize) -> Result<E, StoreFault>
    ensures reads { Reads (elements E.unpacked words.old) n result (elements E.unpacked words.new) }
    ensures words { words.new ≡ words.old }
{
    let (pairs, _) = words.as_chunks::<2>();
    let [first, second] = *pairs.get(n).ok_or(StoreFault::Beyond)?;
    Ok(E::unpack(Words { first, second }))
}

fn write_pair<E: Element>(words: &mut [u32], n: usize, x: E) -> Result<(), StoreFault>
    ensures writes { Writes (elements E.unpacked words.old) n x result (elements E.unpacked words.new) }
    ensures words { words.new ≡ rewritten result n (E.packed x) words.old }
{
    // By its words: after a write through `as_chunks_mut` no proof knows them.
    if n < words.len() / 2 {
        let pair = x.pack();
        words[2 * n] = pair.first;
        words[2 * n + 1] = pair.second;
        Ok(())
    } else {
        Err(StoreFault::Beyond)
    }
}

// A store over a lent list of words: cell n is packed in words 2n and 2n + 1. An odd last word belongs to no cell.
#[derive(Drop)]
pub struct Packed<'a, E> {
    words: &'a mut [u32],
    kind: PhantomData<E>,
}

impl<'a, E> Packed<'a, E> {
    pub fn new(words: &'a mut [u32]) -> Packed<'a, E>
        ensures value { result.words.now ≡ words.old }
        ensures lender { result.words.ghost_name ≡ words.entry.ghost_name }
    {
        Packed {
            words,
            kind: PhantomData,
        }
    }
}

impl<'a, E: Element> Store for Packed<'a, E> {
    type Item = E;

    ghost cells = { λ s. elements E.Element.unpacked s.words.now };

    ghost lender = { λ s. s.words.ghost_name ∷ [] };

    fn len(&self) -> usize {
        self.words.len() / 2
    }

    fn read(&mut self, n: usize) -> Result<E, StoreFault>
        ensures reads { Reads (elements E.unpacked self.old.words.now) n result
            (elements E.unpacked self.new.words.now) }
        ensures lender { self.new.words.ghost_name ∷ [] ≡ self.old.words.ghost_name ∷ [] }
        ensures words { self.new.words.now ≡ self.old.words.now }
    {
        read_pair(self.words, n)
    }

    fn write(&mut self, n: usize, x: E) -> Result<(), StoreFault>
        ensures writes { Writes (elements E.unpacked self.old.words.now) n x result
            (elements E.unpacked self.new.words.now) }
        ensures lender { self.new.words.ghost_name ∷ [] ≡ self.old.words.ghost_name ∷ [] }
        ensures words { self.new.words.now ≡ rewritten result n (E.packed x) self.old.words.now }
    {
        write_pair(self.words, n, x)
    }
}
