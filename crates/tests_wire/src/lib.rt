// Worked examples of encoding and decoding: lengths, numbers, views, and types of several fields.
#![tactic(auto)]

#[cfg(test)]
mod chunks;
#[cfg(test)]
mod encode;
#[cfg(test)]
mod lengths;
#[cfg(test)]
mod message;
#[cfg(test)]
mod parts;
#[cfg(test)]
mod same;
#[cfg(test)]
mod shard;
#[cfg(test)]
mod values;
#[cfg(test)]
mod whole;
#[cfg(test)]
mod zeros;
