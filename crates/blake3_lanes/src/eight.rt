// The same with vectors of eight words, for processors that have them.
pub(crate) mod chunks;
mod kernel;
pub(crate) mod parents;
mod vectors;
