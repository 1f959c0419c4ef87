use element::words::Words;

// A write that a layer holds: the cell and its packed element.
#[derive(Clone, Copy, Default)]
pub struct HeldWrite {
    pub cell: usize,
    pub words: Words,
}
