//! The worked examples of docs/RULES.md, and one example of every cause of a fault and every kind of record, as tests.
#![tactic(auto)]

#[cfg(test)]
mod batches;
#[cfg(test)]
mod checks;
#[cfg(test)]
mod numbers;
#[cfg(test)]
mod parts;
#[cfg(test)]
mod runs;
