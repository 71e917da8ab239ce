// The answers to a lookup, the way from a node's number to a version's index, and the version that is wanted by name. Definitions: specs/Lookups.antt, from
// document 01, 'Ranking'. The version of a name is looked up in `version_lookup`, its locality in `locality_lookup`.
#![tactic(auto)]

pub mod answers;
pub mod index;
pub mod listing;
pub mod locality_lookup;
pub mod version_lookup;
pub mod wanted;
