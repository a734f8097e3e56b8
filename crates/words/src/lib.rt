// The bits and words of f64 and f32 with one NaN, and the size, which looks at nothing else.
#![tactic(auto)]

pub mod bits;
pub mod fabs;
pub mod real;
