// What an edit of a trial book answers. Definitions of every edit: specs/Trial.antt, from document 01, 'The book'; of what it answers and leaves in lent
// buffers: specs/Changes.antt; of what it makes of the lines' offsets: specs/Offsets.antt, from document 02, request 02.
#![tactic(auto)]

// The first number of an edit's row.
pub const ADD: u32 = 1;

pub const STRIKE: u32 = 2;
