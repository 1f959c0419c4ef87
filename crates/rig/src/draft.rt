use element::words::Words;
use port::ports::Ports;
use setup::directive::{Bottom, ElementKind};
use sheet::sheet::Sheet;

mod ops;

// A setup as far as its lines were read. Its elements are an array for the largest sheet, as in a setup: reading allocates nothing.
#[derive(Drop)]
pub(crate) struct Draft {
    kind: Option<ElementKind>,
    store: Option<Bottom>,
    layers: Option<u8>,
    sheet: Option<Sheet>,
    ports: Ports,
    elements: [Words; 512],
}
