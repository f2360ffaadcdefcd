// How many words a vector of the kernel for chunks has: 4 or 8. It is 4 where the gate builds, for x86-64-v2;
// `scripts/ddc` sets 8 in its copy of the sources for a processor with AVX2. Both kernels are proved, by one contract.
pub(crate) const WIDTH: usize = 4;
