use element::words::Words;

// What a part left in the swapped cells: 16 packed elements, one for each swapped cell in their order. An array, since C keeps it in place.
#[repr(C)]
#[derive(Clone, Copy)]
pub struct SaveRow {
    words: [Words; 16],
}

pub mod swap;
