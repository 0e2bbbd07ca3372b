//! Tests of turns and of sites, alone and shared: what no clause of theirs says.
#![tactic(auto)]

#[cfg(test)]
mod alone;
#[cfg(test)]
mod calling;
#[cfg(test)]
mod making;
#[cfg(test)]
mod of_running_site;
#[cfg(test)]
mod of_shut_cells;
#[cfg(test)]
mod of_site_calls;
#[cfg(test)]
mod of_stream_site;
#[cfg(test)]
mod of_turn_table;
#[cfg(test)]
mod telling;
