// One part alone: what is left of a show for it, and whether it was answered alike.
#![tactic(auto)]

pub mod left;
pub mod logs;
