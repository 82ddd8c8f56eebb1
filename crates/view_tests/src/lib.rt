//! Tests of words as texts, of the views and of breadcrumbs, through their public calls: a file for each crate.
//!
//! They stand in a crate of their own since a crate with tests is proved twice, once with them.
#![tactic(auto)]

#[cfg(test)]
mod char_view_tests;
#[cfg(test)]
mod crumbs_tests;
#[cfg(test)]
mod part;
#[cfg(test)]
mod rounding_tests;
#[cfg(test)]
mod unit_views_tests;
#[cfg(test)]
mod utf16_view_crumb_tests;
#[cfg(test)]
mod utf16_view_tests;
#[cfg(test)]
mod word_units_tests;
