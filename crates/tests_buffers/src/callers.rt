// The crates over the buffers: lists of commands, printed text.
mod many;
mod printed;
