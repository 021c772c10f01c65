// Frames, streams of frames, and the worked callers, also over readers and writers that fail.
#![tactic(auto)]

#[cfg(test)]
mod calls;
#[cfg(test)]
mod framed;
#[cfg(test)]
mod frames;
#[cfg(test)]
mod pool;
#[cfg(test)]
mod same;
#[cfg(test)]
mod scale;
#[cfg(test)]
mod sessions;
#[cfg(test)]
mod streams;
