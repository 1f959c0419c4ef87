use host::host::Kept;

// A host without its cells, which the caller keeps between calls: what the host keeps, the kind of its elements (heads, or else levels), and
// how many layers a run goes through. C keeps it, so it has a flag and a number in place of enums.
#[repr(C)]
#[derive(Clone, Copy)]
pub struct KeptHost {
    pub(crate) kept: Kept,
    pub(crate) heads: bool,
    pub(crate) layers: u8,
}
