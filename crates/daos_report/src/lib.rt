// Reports: the text of one, its reader, and the summary of a load's.
#![tactic(auto)]

pub use daos_summary::summary::summary_text;
pub use report_reader::fault::ReportNo;
pub use report_reader::report::read_report;
pub use report_writer::text::report_text;
