// A question of the release desk's input: of a symbol's line, or of what the book holds; answered into a lent buffer. Definitions: specs/Questions.antt. These
// functions are the release desk's own leaves: they ask for room.
ghost use Rattle.std.specs.Prelude.{◌+◌, ◌≤◌, length, ◌≡◌, true};
ghost use Rattle.book.specs.Lending.{buffers_of};
ghost use Rattle.book.specs.Layout.{five};
ghost use Rattle.book.specs.View.{holds};
ghost use Rattle.printing.specs.Printing.{Begins};
ghost use Rattle.printing_book.specs.Shown.{shown_room};
ghost use Rattle.desk.specs.Answers.{Tells};
ghost use Rattle.desk.specs.Questions.{book_shown, held_shown, of_book, question_told};

use crate::answering::{Ran, printed};
use crate::asking::{run_ask, run_why};
use book::lent::Lent;
use book_check::{Held, is_book};
use desk_commands::parts::tail;
use desk_commands::{Question, Shown};
use numbers::NO_BOOK;
use printing::put_refused_answer;
use printing_book::dump::show_dump;
use printing_book::lines::show_lines;
use printing_book::show_counts;

// What is shown of a book, which the buffers hold.
fn show(book: Held, what: Shown, out: &mut [u8]) -> usize
    requires { shown_room book.lent.counts ≤ length out.old }
    ensures { Begins out.old
        (held_shown book.entry.lent.counts (buffers_of book.entry.lent) what)
        out.new result }
{
    let c = book.lent.counts;
    match what {
        Shown::Counts => show_counts(c, out),
        Shown::Lines => show_lines(book, out),
        Shown::Dump => show_dump(book, out),
    }
}

// The same of buffers that may hold none.
fn run_show(book: Lent, what: Shown, out: &mut [u8]) -> Ran
    requires { shown_room book.counts ≤ length out.old }
    ensures { Tells book.entry.counts (buffers_of book.entry)
        (λ b w. of_book w (book_shown book.entry.counts b what)) out.old result out.new }
{
    let c = book.counts;
    if !is_book(book) {
        return printed(c, put_refused_answer(out, NO_BOOK));
    }
    printed(c, show(Held { lent: book }, what, out))
}

// A question.
pub fn run_question(book: Lent, text: &[u8], line: &[u8], q: Question, out: &mut [u8]) -> Ran
    requires { shown_room book.counts + length line.now ≤ length out.old }
    ensures { Tells book.entry.counts (buffers_of book.entry)
        (λ b w. question_told text.now book.entry.counts b w line.now q) out.old result out.new }
{
    match q {
        Question::Ask(at) => run_ask(book, tail(line, at), out),
        Question::Why(at) => run_why(book, text, tail(line, at), out),
        Question::Show(what) => run_show(book, what, out),
    }
}
