// Tests of the access sheet, the port sets and the port queues.
#![tactic(auto)]

#[cfg(test)]
mod bit;
#[cfg(test)]
mod ports;
#[cfg(test)]
mod queues;
#[cfg(test)]
mod sheets;
