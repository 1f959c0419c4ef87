ghost use Rattle.std.specs.Prelude.{◌≡◌, ◌≤◌, length};

use element::words::Words;

pub mod ops;

// The most elements that a message has.
pub const ELEMENTS: usize = 4;

// At most four packed elements; an array and its length, for the queues have a layout that C counts.
#[repr(C)]
#[derive(Clone, Copy)]
pub struct Message {
    words: [Words; ELEMENTS],
    len: usize,
    ghost fits: { len ≤ 4 },
    ghost whole: { length words ≡ 4 },
}
