use crate::fault::StoreFault;

// One access to a store.
#[derive(Clone, Copy)]
pub enum Access<E> {
    Read(usize),
    Write(usize, E),
}

// What a store answers to an access: the element that was read, none for a write, or the refusal.
pub type Answer<E> = Result<Option<E>, StoreFault>;
