// Octets to fields and back: the elements of IEC 60870-5-101 that the carried types have.
// A bit string and an f32's bits are numbers of four octets, which `laws` reads and writes, and the commands 100 and 101 are a
// bare octet. What has fields or a sign stands here.
#![tactic(auto)]

pub mod information_elements;
pub mod numbers;
pub mod quality_descriptors;
pub mod refusals;
