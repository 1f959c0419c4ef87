// Stores, layers and transfers at work on levels.
#![tactic(auto)]

#[cfg(test)]
mod tests;
#[cfg(test)]
mod traced;
