//! Definitions without code: the rules of a slab class's segments and events, and what stripes and classes note of each other.
