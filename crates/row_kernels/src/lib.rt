//! The kernels of having and select.
#![tactic(auto)]

mod having;
mod joining;
mod select;
mod selecting;
mod testing;

pub use having::HavingKernel;
pub use select::SelectKernel;
