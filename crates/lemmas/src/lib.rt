//! What several crates prove of truth values, lists, options, results and numbers: lemmas alone,
//! with no code.
#![tactic(auto)]
