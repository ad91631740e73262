//! The limits of a store and of its pods.

/// How many segments a pod has at most, over all its ads.
pub const MAX_POD_SEGMENTS: usize = 500;

/// How many breaks get their pods by decisions at most.
pub const MAX_BREAKS: usize = 256;
