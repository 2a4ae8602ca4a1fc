//! Tests of `rdm_port` that need values, such as readers and writers that fail. The crate has only tests, so `rdm_port`
//! needn't be proved again with them. What arguments, files and streams can show is in the folder `cases`, on which the
//! built program is run.
#![tactic(auto)]

#[cfg(test)]
mod tests;
