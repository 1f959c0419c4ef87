// Tests of the element kinds and the instruction sets at their edges.
#![tactic(auto)]

#[cfg(test)]
mod head_calls;
#[cfg(test)]
mod level_calls;
#[cfg(test)]
mod packing;
#[cfg(test)]
mod texts;
