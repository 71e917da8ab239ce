// The answers to a lookup.
use crate::index::VersionIndex;
use numbers::Refusal;

// A version's index or none, or why there is no answer.
pub type Version = Result<Option<VersionIndex>, Refusal>;

#[derive(Clone, Copy, Debug, PartialEq, Eq)]
pub enum Locality {
    Global,
    Local,
}
