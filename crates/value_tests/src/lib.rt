//! Tests of the public calls of the values and texts, of the edge and of the laws of kernels.
#![tactic(auto)]

#[cfg(test)]
mod making;
#[cfg(test)]
mod of_command_words;
#[cfg(test)]
mod of_io_edge;
#[cfg(test)]
mod of_json_text;
#[cfg(test)]
mod of_kernel_laws;
#[cfg(test)]
mod of_server_edge;
#[cfg(test)]
mod of_texts;
#[cfg(test)]
mod of_tuple_values;
