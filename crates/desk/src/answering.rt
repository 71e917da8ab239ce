// What is answered when a command of the release desk has run. Definitions: specs/Answers.antt.
ghost use Rattle.std.specs.Prelude.{◌≡◌, true};
ghost use Rattle.desk.specs.Answers.{ran_with};

use book::Counts;

// The counts behind a command, how many bytes it prints, and whether it is a command at all; the refusal is 0, or `NO_ROOM` where nothing was done.
#[derive(Clone, Copy)]
pub struct Ran {
    pub counts: Counts,
    pub length: usize,
    pub known: bool,
    pub refusal: u32,
}

// A command that has run.
pub fn printed(c: Counts, length: usize) -> Ran
    ensures { result ≡ ran_with c length true }
{
    Ran {
        counts: c,
        length,
        known: true,
        refusal: 0,
    }
}
