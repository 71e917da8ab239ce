// Replays a sample of what the Rust answers of names (data/cases.txt): opens each script and export list of it, asks its questions, and prints the line of
// each answer that is different, and how many are the same and how many are not. How the sample was made is said in docs/DIFFERENCES.md. One case a line,
// fields split by a blank, bytes as hex, no bytes as `-`, counts, indices and localities as digits; the questions behind a text are asked of it:
//     S 0 text versions parents       a version script, and its counts
//     S 1 text                        an export list
//     V raw demangled index           a version, 0 for none
//     W raw demangled wanted index    with a wanted version, `!` where it is unknown
//     L raw demangled locality        0 for nothing, 1 for global, 2 for local
//     C raw demangled 0|1             whether it is in the list
#![tactic(auto)]

ghost use Rattle.std.specs.Prelude.{◌≤◌, ◌<◌, length, IfOk};
ghost use Rattle.replay.specs.Walks.{Further, Onward, Walks};

use book::Counts;
use book::lent::Lent;
use book_opening::Opened;
use counting::{parent_count, version_count};
use export_list::lookups::contains;
use lookups::answers::{Locality, Version};
use lookups::locality_lookup::locality;
use lookups::version_lookup::version_for_symbol;
use meanings::front;
use numbers::Refusal;
use replay::{
    FIELD, Walk, byte_or_zero, counted, digit, line_at, passed, print_counts, read_cases,
    read_field, start,
};
use std::io;
use std::io::Print;

// An answer that no case has.
const OTHER: u8 = b'?';

fn digit_of(n: u32) -> u8 {
    match n {
        0..=9 => b'0' + (n as u8),
        _ => OTHER,
    }
}

fn count_answer(count: Result<u32, Refusal>) -> u8 {
    match count {
        Ok(n) => digit_of(n),
        Err(_) => OTHER,
    }
}

fn version_answer(version: Version) -> u8 {
    match version {
        Ok(Some(i)) => digit_of(i.number()),
        Ok(None) => b'0',
        Err(Refusal::UnknownVersion) => b'!',
        Err(_) => OTHER,
    }
}

fn locality_answer(locality: Result<Option<Locality>, Refusal>) -> u8 {
    match locality {
        Ok(None) => b'0',
        Ok(Some(Locality::Global)) => b'1',
        Ok(Some(Locality::Local)) => b'2',
        Err(_) => OTHER,
    }
}

fn membership_answer(membership: Result<bool, Refusal>) -> u8 {
    match membership {
        Ok(false) => b'0',
        Ok(true) => b'1',
        Err(_) => OTHER,
    }
}

// Whether the line ends with the answer at this place.
fn ends_with(line: &[u8], at: usize, answer: u8) -> bool {
    matches!(line.get(at..), Some([b]) if *b == answer)
}

// The answer to a question without a wanted version, by its letter.
fn answer_to(letter: u8, book: Lent, raw: &[u8], demangled: &[u8]) -> u8 {
    if letter == b'V' {
        return version_answer(version_for_symbol(book, raw, demangled, None));
    }
    if letter == b'L' {
        return locality_answer(locality(book, raw, demangled));
    }
    if letter == b'C' {
        return membership_answer(contains(book, raw, demangled));
    }
    OTHER
}

// Whether the answer with the wanted version, whose field begins at this place, is the same.
fn same_wanted(line: &[u8], at: usize, book: Lent, raw: &[u8], demangled: &[u8]) -> bool {
    if 1000 < at {
        return false;
    }
    let mut room = [0u8; FIELD];
    let field = read_field(line, at, &mut room);
    let wanted = field.bytes;
    let version = version_for_symbol(book, raw, demangled, Some(wanted));
    ends_with(line, field.next, version_answer(version))
}

fn same_question(line: &[u8], book: Lent) -> bool {
    let letter = byte_or_zero(line, 0);
    let mut first_room = [0u8; FIELD];
    let mut second_room = [0u8; FIELD];
    let first = read_field(line, 2, &mut first_room);
    let second = read_field(line, first.next, &mut second_room);
    let raw = first.bytes;
    let demangled = second.bytes;
    let at = second.next;
    if letter == b'W' {
        return same_wanted(line, at, book, raw, demangled);
    }
    ends_with(line, at, answer_to(letter, book, raw, demangled))
}

// The questions from a place on, up to the next text.
fn ask_all(to: &impl Print, text: &[u8], from: Walk, book: Lent) -> io::Result<Walk>
    requires { Walks (length text.now) from }
    ensures { IfOk result (λ r. Onward (length text.now) from.at r) }
{
    let mut walk = from;
    while walk.at < text.len() {
        let line = line_at(text, walk.at);
        if byte_or_zero(line, 0) == b'S' {
            return Ok(walk);
        }
        let same = same_question(line, book);
        walk = counted(to, passed(text, walk), same)?;
    }
    Ok(walk)
}

fn open(
    is_script: bool,
    text: &[u8],
    nodes: &mut [u32],
    names: &mut [u8],
    lines: &mut [u32],
    pool: &mut [u8],
    journal: &mut [u32],
) -> Opened {
    if is_script {
        return version_script::open(text, nodes, names, lines, pool, journal);
    }
    export_list::open(text, nodes, names, lines, pool, journal)
}

// Whether a text's line ends with these counts, or, if it is an export list's, with the text.
fn same_counts(line: &[u8], at: usize, is_script: bool, versions: u8, parents: u8) -> bool {
    if line.len() < at {
        return !is_script;
    }
    is_script && byte_or_zero(line, at) == versions && ends_with(&line[at..], 2, parents)
}

// Whether a line is one of a text that is opened, and ends with its counts.
fn same_text(line: &[u8], at: usize, is_script: bool, book: Lent) -> bool {
    let versions = count_answer(version_count(book));
    let parents = count_answer(parent_count(book));
    byte_or_zero(line, 0) == b'S' && same_counts(line, at, is_script, versions, parents)
}

// A text that is opened, and whether its counts are the same.
#[derive(Drop)]
struct Book {
    same: bool,
    counts: Counts,
    nodes: [u32; 30],
    names: [u8; 100],
    rows: [u32; 500],
    pool: [u8; 256],
    journal: [u32; 2],
}

// The text of a line whose rest begins at this place.
fn open_book(line: &[u8], at: usize, is_script: bool, text: &[u8]) -> Book {
    let mut nodes = [0u32; 30];
    let mut names = [0u8; 100];
    let mut rows = [0u32; 500];
    let mut pool = [0u8; 256];
    let mut journal = [0u32; 2];
    let opened = open(
        is_script,
        text,
        &mut nodes,
        &mut names,
        &mut rows,
        &mut pool,
        &mut journal,
    );
    let counts = opened.counts;
    let same = opened.refusal == 0
        && same_text(
            line,
            at,
            is_script,
            Lent {
                counts,
                nodes: &nodes,
                names: &names,
                lines: &rows,
                pool: &pool,
                journal: &journal,
            },
        );
    Book {
        same,
        counts,
        nodes,
        names,
        rows,
        pool,
        journal,
    }
}

fn open_text(line: &[u8]) -> Book {
    let mut room = [0u8; FIELD];
    let field = read_field(line, 4, &mut room);
    let is_script = digit(line, 2) == Some(0);
    open_book(line, field.next, is_script, field.bytes)
}

fn ask_book(to: &impl Print, text: &[u8], from: Walk, book: Book) -> io::Result<Walk>
    requires { Walks (length text.now) from }
    ensures { IfOk result (λ r. Onward (length text.now) from.at r) }
{
    let nodes = book.nodes;
    let names = book.names;
    let rows = book.rows;
    let pool = book.pool;
    let journal = book.journal;
    let lent = Lent {
        counts: book.counts,
        nodes: &nodes,
        names: &names,
        lines: &rows,
        pool: &pool,
        journal: &journal,
    };
    ask_all(to, text, from, lent)
}

// A text, and the questions that are asked of it.
fn replay_text(to: &impl Print, text: &[u8], from: Walk) -> io::Result<Walk>
    requires { Walks (length text.now) from × (from.at < length text.now) }
    ensures { IfOk result (λ r. Further (length text.now) from.at r) }
{
    let book = open_text(line_at(text, from.at));
    let same = book.same;
    let walk = counted(to, passed(text, from), same)?;
    ask_book(to, text, walk, book)
}

fn replay(to: &impl Print, text: &[u8]) -> io::Result<Walk>
    ensures { IfOk result (λ r. r.different ≤ r.cases) }
{
    let mut walk = start(text);
    while walk.at < text.len() {
        walk = replay_text(to, text, walk)?;
    }
    Ok(walk)
}

fn main(rt: HostRuntime) -> io::Result<()> {
    let mut text = [0u8; 262144];
    let n = read_cases(&rt, &rt.stderr(), &mut text)?;
    print_counts(&rt, replay(&rt, front(&text, n))?)
}
