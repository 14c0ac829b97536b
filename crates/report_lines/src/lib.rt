//! The lines of a report, each by what it says: their texts, the code that writes them, and the
//! code that reads them. What a line says is guessed from its words, and returned if that is
//! printed as the line. Begin at `answer.rt`, and for reading at `line.rt`.
#![tactic(auto)]

mod answer;
mod code;
mod form;
mod last;
pub mod laws;
mod line;
mod names;
mod number;
mod outcome;
mod printed;
mod quoted;
mod read_last;
mod read_quoted;
mod read_told;
mod shown;
mod told;
mod words;

pub use answer::{
    write_code_result, write_count_result, write_pending_result, write_refusal_result,
    write_refused, write_refused_result, write_result, write_value_result,
};
pub use form::{Form, ReportedAnswer, ReportedOutcome};
pub use last::{read_fault_line, script_fault_line, script_line};
pub use line::read_line;
pub use script_lang;
pub use service_load;
pub use service_load::control_words;
pub use told::{
    write_cleaned, write_cleanup, write_missing, write_said, write_variable, write_visit,
    write_visited, write_wait, write_waited,
};
