//! The kernels of sort, top and merge.
#![tactic(auto)]

mod merge;
mod merge_state;
mod sort;
mod sorted;
mod top;
mod top_state;

pub use merge_state::MergeKernel;
pub use sort::SortKernel;
pub use top_state::TopKernel;
