//! Lemmas that several crates use, each once: on lists of records in ascending key, on numbers and pairs, on look-ups in the rows,
//! on what the rules of rows say, and that each rule's test answers it.
//!
//! They are above `acd_model`, since most of them speak of its scans and of its rules. There is no code here.
#![tactic(auto)]
