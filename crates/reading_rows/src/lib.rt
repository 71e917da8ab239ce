// The events of a text as rows of numbers, for a host in another language, read by a `Reader`. Definitions: specs/Rows.antt.
#![tactic(auto)]

ghost use Rattle.std.specs.Prelude.{◌≡◌, [], ◌∷◌, ◌+◌, ◌/◌, ◌≤◌, length};
ghost use Rattle.std.proofs.lemmas.List.Edits.{sets};
ghost use Rattle.numbers.specs.Editions.{reld};
ghost use Rattle.numbers.specs.Limits.{script_limit};
ghost use Rattle.lists.specs.Front.{front};
ghost use Rattle.reading.specs.Events.{reading};
ghost use Rattle.reading_rows.specs.Rows.{events_rows, events_told, place_of, row, rows_fitting, reading_told};

use linker_script::last_close;
use numbers::{Edition, NO_ROOM, SCRIPT_LIMIT, TOO_LONG};
use reader::step;
use reading_cursors::places::Place;
use reading_cursors::{Event, start_at};

fn source_place(source: u32) -> Place
    ensures { result ≡ place_of source }
{
    match source {
        0 => Place::AtScript,
        1 => Place::AtList,
        2 => Place::AtSymbol,
        _ => Place::AtBare,
    }
}

fn put_numbers(rows: &mut [u64], at: usize, kind: u64, a: u64, b: u64, c: u64, d: u64)
    requires { at + 5 ≤ length rows.old }
    ensures { rows.new ≡ sets rows.old at (kind ∷ a ∷ b ∷ c ∷ d ∷ []) }
{
    rows[at] = kind;
    rows[at + 1] = a;
    rows[at + 2] = b;
    rows[at + 3] = c;
    rows[at + 4] = d;
}

fn put_row(rows: &mut [u64], at: usize, e: Event)
    requires { at + 5 ≤ length rows.old }
    ensures { rows.new ≡ sets rows.old at (row e) }
{
    match e {
        Event::Node { start, len } => put_numbers(rows, at, 1, start as u64, len as u64, 0, 0),
        Event::Body => put_numbers(rows, at, 2, 0, 0, 0, 0),
        Event::Section(section) => put_numbers(rows, at, 3, section as u64, 0, 0, 0),
        Event::Extern { section, language } => {
            put_numbers(rows, at, 4, section as u64, language as u64, 0, 0)
        }
        Event::Closed => put_numbers(rows, at, 5, 0, 0, 0, 0),
        Event::Line {
            section,
            language,
            start,
            len,
        } => put_numbers(
            rows,
            at,
            6,
            section as u64,
            language as u64,
            start as u64,
            len as u64,
        ),
        Event::Parent { start, len } => put_numbers(rows, at, 7, start as u64, len as u64, 0, 0),
    }
}

// The events of a text within the largest limit, as rows.
fn write_events(place: Place, text: &[u8], rows: &mut [u64]) -> u64
    requires { length text.now ≤ script_limit }
    ensures { (result ≡ reading_told (reading reld place text.now) (length rows.old / 5))
        × (rows.new ≡ front (rows_fitting place text.now (length rows.old / 5)) rows.old) }
{
    let last = last_close(text);
    let mut c = start_at(Edition::Reld, place);
    let mut n = 0;
    loop {
        match step(text, last, c) {
            Ok(None) => {
                return 256 * ((n / 5) as u64);
            }
            Err(no) => {
                return no.refusal.number() as u64 + 256 * (no.place as u64);
            }
            Ok(Some((e, d))) => {
                if rows.len() - n < 5 {
                    return NO_ROOM as u64;
                }
                put_row(rows, n, e);
                n += 5;
                c = d;
            }
        }
    }
}

// The events of a text: 0 a version script, 1 an export list, 2 a text of `add_symbol`, any other number one without semicolon. The answer is a
// refusal's number with 256 times its place, or 256 times the number of events; 8 where the rows that are lent are too few.
#[unsafe(no_mangle)]
pub extern "C" fn reading_events(source: u32, text: &[u8], rows: &mut [u64]) -> u64
    ensures { (result ≡ events_told source text.now (length rows.old))
        × (rows.new ≡ events_rows source text.now rows.old) }
{
    if SCRIPT_LIMIT < text.len() {
        return TOO_LONG as u64;
    }
    write_events(source_place(source), text, rows)
}
