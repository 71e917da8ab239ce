// glob_match.rs for a host in another language, over `classes` and `storing`. Definitions: specs/Answers.antt.
#![tactic(auto)]

pub mod exports;
