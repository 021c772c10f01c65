// Worked examples, and tests of what no contract says: success, sharing, printed errors.
// `callers` tests the crates over the buffers, and `owner` the owner machine.
#![tactic(auto)]

#[cfg(test)]
mod callers;
#[cfg(test)]
mod cuts;
#[cfg(test)]
mod examples;
#[cfg(test)]
mod generic;
#[cfg(test)]
mod located;
#[cfg(test)]
mod owner;
#[cfg(test)]
mod parts;
#[cfg(test)]
mod same;
#[cfg(test)]
mod strung;
#[cfg(test)]
mod texts;
