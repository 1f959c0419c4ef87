// A setup text carried out line by line: the kind, the store, the layers, the access sheet, the ports and the first elements.
#![tactic(auto)]

mod draft;
pub mod parse;
pub mod problem;
pub mod whole_setup;
