//! Tests of the whole program: runs in memory, with replies worked out by hand.
#![tactic(auto)]

#[cfg(test)]
mod of_chunks;
#[cfg(test)]
mod of_daemons;
#[cfg(test)]
mod of_eval;
#[cfg(test)]
mod of_eval_limits;
#[cfg(test)]
mod of_loopback;
#[cfg(test)]
mod of_readme;
#[cfg(test)]
mod of_scripts;
#[cfg(test)]
mod of_serve;
#[cfg(test)]
mod of_topics;
#[cfg(test)]
mod of_words;
#[cfg(test)]
mod running;
#[cfg(test)]
mod samples;
#[cfg(test)]
mod workers_apart;
