//! Tests of the libraries and of the program through their public calls.
//!
//! A crate with tests is proved twice, once with them. So tests that need nothing but public calls stand here, at the top, a file for
//! each crate, and those that ask a crate's inside stay with it.
#![tactic(auto)]

#[cfg(test)]
mod batch_tests;
#[cfg(test)]
mod batch_workers_tests;
#[cfg(test)]
mod batch_workers_view_tests;
#[cfg(test)]
mod canon_order_tests;
#[cfg(test)]
mod edit_cow_tests;
#[cfg(test)]
mod edits_in_place_tests;
#[cfg(test)]
mod example_tests;
#[cfg(test)]
mod heaps;
#[cfg(test)]
mod index_words_tests;
#[cfg(test)]
mod object_words_tests;
#[cfg(test)]
mod outside_tests;
#[cfg(test)]
mod query_lines_tests;
#[cfg(test)]
mod query_program_tests;
#[cfg(test)]
mod query_program_words_tests;
#[cfg(test)]
mod query_session_tests;
#[cfg(test)]
mod slot_model_tests;
#[cfg(test)]
mod text_spec_tests;
