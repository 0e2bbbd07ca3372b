//! Tests of the public calls of the readers: of requests, expressions, sorts and queries.
#![tactic(auto)]

#[cfg(test)]
mod making;
#[cfg(test)]
mod of_expr_limits;
#[cfg(test)]
mod of_expr_reader;
#[cfg(test)]
mod of_form_request;
#[cfg(test)]
mod of_query_reading;
#[cfg(test)]
mod of_query_syntax;
#[cfg(test)]
mod of_sort_spec;
#[cfg(test)]
mod request_samples;
#[cfg(test)]
mod shown_calls;
