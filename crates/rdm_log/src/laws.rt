//! What is proved about logs and answers, beside the contracts of the calls.

mod broken;
mod discoveries;
mod explained;
mod headline;
mod limits;
mod logs;
mod runs;

pub use broken::{
    wrong_after_a_close, wrong_answers, wrong_collector, wrong_frames, wrong_order, wrong_parts,
    wrong_refusals, wrong_results,
};
pub use discoveries::{
    answers_report_a_noisy_line, answers_report_the_line, exactly_one_answer,
    first_asked_first_answered, full_client_is_refused, legal_keeps_discoveries,
    outcomes_report_a_noisy_line, own_discoveries, runs_answer_what_was_asked,
};
pub use explained::{
    each_event_is_answered, not_explained, parts_are_joined, sample_is_explained,
    wasted_run_is_not_explained,
};
pub use headline::{
    answers_keep_promises, exactly_one_result, first_in_first_out, flags_hold, full_queue_refuses,
    joined_answer, legal_keeps_promises, nothing_after_close, own_requests,
};
pub use limits::limits_are;
pub use logs::{
    broken_answers_are_flagged, counts_of_a_log, faults_in_order, log_grows,
    no_send_is_no_legal_send, open_keys_stay, rooms, sample_is_legal,
};
pub use runs::{
    counts_of_discoveries, order_at_a_close, runs_are_legal, runs_are_seen,
    wrong_discovery_answers, wrong_kinds, wrong_run_frames,
};
