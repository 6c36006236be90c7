#![tactic(auto)]

// The records and strings of a script file.
pub mod kind;
pub mod layout;
pub mod part;
