// Payloads of cut files: the form that each kind's payload has, and a payload's first fault. Only the form is judged: a pattern may be any.
// Document 02, request 4, decides.
#![tactic(auto)]

pub mod form;
pub mod judging;
