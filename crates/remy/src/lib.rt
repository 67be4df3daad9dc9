#![tactic(auto)]

pub mod action;
pub mod cube;
pub mod point;
