// Why a name of a lent book is answered as it is, in seven numbers. `out` shorter than that is refused 8, last, and nothing is written where anything is
// refused. Definitions: c_lending/specs/Calls.antt, and reasons/specs/Why.antt for the numbers.
ghost use Rattle.std.specs.Prelude.{◌≡◌};
ghost use Rattle.book.specs.Layout.{five};
ghost use Rattle.ranking.specs.Matching.{name_of};
ghost use Rattle.lookups.specs.Lookups.{wanted_of};
ghost use Rattle.numbers.specs.Saying.{refusal_of};
ghost use Rattle.reasons.specs.Why.{seven, why_asked, why_numbers};
ghost use Rattle.c_lending.specs.Calls.{RepliesWith, flag, lent, numbers_left, numbers_told};

use book::lent::Lent;
use c_lending::counts_of;
use numbers::{NO_ROOM, Refusal};
use reasons::{Reason, Why};

// How many numbers the answer is.
const SEVEN: usize = 7;

// What is told where no line is.
const NO_REASON: Reason = Reason {
    line: 0,
    class: 0,
    node: 0,
    section: 0,
    language: 0,
    offset: 0,
};

// A refusal, or what is answered and a line's numbers, at the front of `out`.
fn answer_seven(no: u32, what: u32, r: Reason, out: &mut [u32]) -> u32
    ensures { (result ≡ numbers_told no (seven what r) out.old) × (out.new ≡ numbers_left no (seven what r) out.old) }
{
    if no != 0 {
        return no;
    }
    if out.len() < SEVEN {
        return NO_ROOM;
    }
    out[0] = what;
    out[1] = r.line;
    out[2] = r.class;
    out[3] = r.node;
    out[4] = r.section;
    out[5] = r.language;
    out[6] = r.offset;
    0
}

// 0 for no line, 1 for a line, 2 for the wanted version.
fn tell_done(y: Why, out: &mut [u32]) -> u32
    ensures { RepliesWith refusal_of why_numbers (Ok y) out.old result out.new }
{
    match y {
        Why::NoLine => answer_seven(0, 0, NO_REASON, out),
        Why::Wanted => answer_seven(0, 2, NO_REASON, out),
        Why::Line(r) => answer_seven(0, 1, r, out),
    }
}

fn tell_why(y: Result<Why, Refusal>, out: &mut [u32]) -> u32
    ensures { RepliesWith refusal_of why_numbers y out.old result out.new }
{
    match y {
        Ok(y) => tell_done(y, out),
        Err(no) => answer_seven(no.number(), 0, NO_REASON, out),
    }
}

// `has_wanted`, where it is not 0, says that `wanted` is the version that is wanted.
pub fn why(
    counts: &[u32],
    nodes: &[u32],
    names: &[u8],
    lines: &[u32],
    pool: &[u8],
    journal: &[u32],
    raw: &[u8],
    demangled: &[u8],
    has_wanted: u32,
    wanted: &[u8],
    out: &mut [u32],
) -> u32
    ensures { RepliesWith refusal_of why_numbers
        (why_asked (lent counts.now
        (five nodes.now names.now lines.now pool.now journal.now))
        (name_of raw.now demangled.now) (wanted_of (flag has_wanted) wanted.now))
        out.old result out.new }
{
    let has = has_wanted != 0;
    let y = reasons::asking::why(
        Lent {
            counts: counts_of(counts),
            nodes,
            names,
            lines,
            pool,
            journal,
        },
        raw,
        demangled,
        has.then_some(wanted),
    );
    tell_why(y, out)
}
