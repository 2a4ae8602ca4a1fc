//! Tests of the crates from `rdm_wire` to `rdm_queue` and of `rdm_explain`, of values that no case reaches. This crate
//! has only tests, so the libraries aren't proved a second time with them. The folder `cases` and
//! `bindings/tests/test_queue.py` show the rest.
#![tactic(auto)]

#[cfg(test)]
mod tests;
