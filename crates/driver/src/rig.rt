use port::ports::Ports;
use sheet::sheet::Sheet;

pub mod calls;

// What a host is made from, but for its cells: the sheet, the port sets, the kind of element (heads, or else levels), and how many layers
// a run goes through. C keeps it, so it has a flag and a number in place of enums.
#[repr(C)]
#[derive(Clone, Copy)]
pub struct Rig {
    pub(crate) sheet: Sheet,
    pub(crate) ports: Ports,
    pub(crate) heads: bool,
    pub(crate) layers: u8,
}
