//! Tests of the kernels and of the sources that feed them: what no clause of theirs says.
#![tactic(auto)]

#[cfg(test)]
mod feeding;
#[cfg(test)]
mod making;
#[cfg(test)]
mod of_group_kernels;
#[cfg(test)]
mod of_hash_join;
#[cfg(test)]
mod of_merge_join;
#[cfg(test)]
mod of_order_kernels;
#[cfg(test)]
mod of_row_kernels;
#[cfg(test)]
mod of_source_streams;
#[cfg(test)]
mod telling;
