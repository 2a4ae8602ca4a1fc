//! Laws of arguments and of runs, each the contract of a function that does nothing.
pub use rdm_arguments::laws::what_words_ask;
pub use rdm_reports::laws::few_losses_are_honest;
