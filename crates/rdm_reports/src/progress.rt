//! How far a session or a discovery is.
use rdm_files::Remark;

// How many exchanges are made before the next report.
const OFTEN: usize = 100;

/// Receives what people should know about a file, and how many exchanges its session or discovery has made.
pub trait Progress {
    /// People should know this about the file. Its work hasn't begun yet.
    fn remark(&mut self, remark: &Remark);

    /// This many exchanges were made.
    fn report_exchanges(&mut self, exchanges: usize);
}

/// Reports how many exchanges were made, if that is a multiple of 100 and not 0.
pub fn write_often<P: Progress>(progress: &mut P, made: usize) {
    if made > 0 && made % OFTEN == 0 {
        progress.report_exchanges(made);
    }
}
