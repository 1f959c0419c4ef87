use element::head::Head;
use element::level::Level;

// What the cells hold, as elements of their kind.
#[derive(Drop)]
pub enum Cells {
    Levels(Vec<Level>),
    Heads(Vec<Head>),
}
