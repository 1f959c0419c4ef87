// Setup texts, rows and options, run on examples.
#![tactic(auto)]

#[cfg(test)]
mod options;
#[cfg(test)]
mod rows;
#[cfg(test)]
mod texts;
