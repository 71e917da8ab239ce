// The matcher, on the stored bytes of a pattern. It remembers its latest star alone: where a test fails, or the pattern ends before the name, that star
// takes one character more. So it makes at most as many tests as the pattern has elements, times one more than the name has characters, and it needs no
// stack for its stars. A test of a bracket reads the bracket's bytes. Definitions: specs/Tests.antt, from document 02 (request 07).
#![tactic(auto)]

ghost use Rattle.std.specs.Prelude.{◌≡◌, [], ◌+◌, ◌<◌, ◌≤◌, length, drop};
ghost use Rattle.numbers.specs.Limits.{token_limit, name_limit};
ghost use Rattle.pattern.specs.Patterns.{elements, matches};
ghost use Rattle.matching.specs.Tests.{match_of};

use crate::elements::{ElementAt, element_at};
use numbers::Edition;

mod elements;

// Whether stars alone are left of the pattern, which then match the end of a name.
fn only_stars(edition: Edition, p: &[u8], from: usize) -> bool
    ensures { result ≡ matches (elements edition (drop from p.now)) [] }
{
    p.iter().skip(from).all(|c| *c == b'*')
}

// Whether a pattern matches a name, and how many tests were made.
#[derive(Clone, Copy)]
pub struct Tried {
    pub matched: bool,
    pub tests: u64,
}

// The latest star: the place behind it, and the place of the name up to which it has taken.
#[derive(Clone, Copy)]
pub struct LatestStar {
    pub behind: usize,
    pub from: usize,
}

// The pattern's stored bytes are p, the name's bytes n. The lengths are 01's limits, so that the number of tests fits.
pub fn match_name(edition: Edition, p: &[u8], n: &[u8]) -> Tried
    requires { (length p.now ≤ token_limit) × (length n.now ≤ name_limit) }
    ensures { result ≡ match_of edition p.now n.now }
{
    let mut at = 0;
    let mut i = 0;
    let mut star: Option<LatestStar> = None;
    let mut tests: u64 = 0;
    while i < n.len() {
        let f = utf8::character_at(n, i);
        match element_at(edition, p, at, f.number) {
            ElementAt::Takes(next) => {
                tests += 1;
                at = next;
                i = f.next;
            }
            ElementAt::Star(next) => {
                if p.len() <= next {
                    return Tried {
                        matched: true,
                        tests,
                    };
                }
                star = Some(LatestStar {
                    behind: next,
                    from: i,
                });
                at = next;
            }
            ElementAt::Fails(made) => {
                tests += made;
                let Some(latest) = star else {
                    return Tried {
                        matched: false,
                        tests,
                    };
                };
                let g = utf8::character_at(n, latest.from);
                star = Some(LatestStar {
                    from: g.next,
                    ..latest
                });
                i = g.next;
                at = latest.behind;
            }
        }
    }
    Tried {
        matched: only_stars(edition, p, at),
        tests,
    }
}
