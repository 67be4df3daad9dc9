// Numbers, floats, actions and points as big-endian bytes.
#![tactic(auto)]

pub mod inner;
