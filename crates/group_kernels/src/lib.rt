//! The kernels of unique, reduce and rollup.
#![tactic(auto)]

mod group;
mod key;
mod metric;
mod named;
mod reduce;
mod rolled;
mod rollup;
mod unique;
mod work;

pub use reduce::ReduceKernel;
pub use rollup::RollupKernel;
pub use unique::UniqueKernel;
