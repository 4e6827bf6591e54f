// The vocabulary that every other crate shares: counts, refusals, calls, a diagram's shape, bytes.
#![tactic(auto)]

pub mod bytes;
pub mod call;
pub mod count;
pub mod refusal;
pub mod shape;
