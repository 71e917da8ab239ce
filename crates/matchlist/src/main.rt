// Which names does a token match? Standard input (65,536 bytes at most): the token's line, taken as it stands, then one name a line; a last LF may lack. It
// prints the token's class and what is stored of it, then for each name whether the token matches: `yes`, `no`, or `!` and 9 where the name is not
// UTF-8. A token that is refused prints `refused` and the number, and standard error says what the number means.
#![tactic(auto)]

use classes::Class;
use input::splitting::{line_end, part_behind};
use meanings::{front, read_input, say, say_meaning};
use numbers::Edition;
use std::io;
use std::io::Print;

fn print(to: &impl Print, bytes: &[u8]) -> io::Result<()> {
    to.write_all(bytes)
}

fn refuse(to: &impl Print, err: &impl Print, no: u32) -> io::Result<()> {
    println!(to; "refused {no}")?;
    say(err, b"matchlist: ")?;
    say_meaning(err, no)
}

fn print_class(to: &impl Print, class: Class) -> io::Result<()> {
    match class {
        Class::Exact => print(to, b"Exact "),
        Class::Escaped => print(to, b"Escaped "),
        Class::NonStar => print(to, b"NonStar "),
        Class::Star => print(to, b"Star "),
        Class::All => print(to, b"All "),
    }
}

fn print_answer(to: &impl Print, matched: bool) -> io::Result<()> {
    print(to, if matched { b" yes\n" } else { b" no\n" })
}

fn print_name(to: &impl Print, class: Class, stored: &[u8], name: &[u8]) -> io::Result<()> {
    print(to, name)?;
    if !utf8::is_utf8(name) {
        return print(to, b" ! 9\n");
    }
    let matched = match class {
        Class::Exact | Class::Escaped => stored == name,
        Class::NonStar | Class::Star => {
            glob_match::exports::glob_match_matches(stored, name) == 256
        }
        Class::All => true,
    };
    print_answer(to, matched)
}

fn print_names(to: &impl Print, class: Class, stored: &[u8], text: &[u8]) -> io::Result<()> {
    for line in text.split_inclusive(|b| *b == b'\n') {
        print_name(to, class, stored, line.strip_suffix(b"\n").unwrap_or(line))?;
    }
    Ok(())
}

fn print_all(to: &impl Print, err: &impl Print, text: &[u8], room: &mut [u8]) -> io::Result<()> {
    let end = line_end(text, 0);
    match storing::store_token(Edition::Reld, front(text, end), room) {
        Err(no) => refuse(to, err, no.number()),
        Ok(stored) => {
            let bytes = front(room, stored.size);
            print_class(to, stored.class)?;
            print(to, bytes)?;
            print(to, b"\n")?;
            print_names(to, stored.class, bytes, part_behind(text, end))
        }
    }
}

fn main(rt: HostRuntime) -> io::Result<()> {
    let err = rt.stderr();
    let mut text = [0u8; 65537];
    let mut room = [0u8; 65536];
    let n = read_input(&mut rt.stdin(), &mut text)?;
    if 65536 < n {
        return refuse(&rt, &err, 1);
    }
    print_all(&rt, &err, front(&text, n), &mut room)
}
