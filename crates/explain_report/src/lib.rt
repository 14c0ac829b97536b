//! The stack calls of a report beside the rules of their stacks. Begin at `report.rt`;
//! `explainer.rt` has one line of a report.
#![tactic(auto)]

mod explainer;
mod report;

pub use explain_calls::explain_lines;
pub use report::explain_report;
