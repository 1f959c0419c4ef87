use element::words::Words;
use port::ports::Ports;
use setup::directive::{Bottom, ElementKind};
use sheet::sheet::Sheet;

// What a host is made from.
#[derive(Drop)]
pub struct Setup {
    pub kind: ElementKind,
    pub store: Bottom,
    pub layers: u8,
    pub sheet: Sheet,
    pub ports: Ports,
    // What each cell holds at first, packed; two zeros are the null element. There is room for the largest sheet, since
    // reading a setup allocates nothing and so cannot fail for want of memory.
    pub elements: [Words; 512],
}
