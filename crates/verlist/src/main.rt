// The version and locality of symbols under a version script, as document 01 describes it. Standard input (65,536 bytes at most): the script, a line `%%`, then
// one symbol a line, `@` before a wanted version. What is printed is rendered whole by `printing_listing::render_listing`. Where the script is refused,
// standard error says where, and what the number means.
#![tactic(auto)]

ghost use Rattle.std.specs.Prelude.{◌≡◌};
ghost use Rattle.printing_listing.specs.Listing.{listed, out_left, verlist_room};

use meanings::{front, read_input, say_refused};
use printing_listing::render_listing;
use printing_listing::script::Listed;
use std::io;
use std::io::Print;

// What is printed for an input, rendered into `out`, in 01's room: "1,024 nodes, 2,048 lines, 65,536 bytes each of names and pool".
fn render(text: &[u8], out: &mut [u8; 983104]) -> Listed
    ensures { (result ≡ listed verlist_room text.now out.old)
        × (out.new ≡ out_left verlist_room text.now out.old) }
{
    let mut nodes = [0u32; 3072];
    let mut names = [0u8; 65536];
    let mut lines = [0u32; 10240];
    let mut pool = [0u8; 65536];
    let mut journal = [0u32; 2];
    render_listing(
        text,
        &mut nodes,
        &mut names,
        &mut lines,
        &mut pool,
        &mut journal,
        out,
    )
}

fn print_listing(
    to: &impl Print,
    err: &impl Print,
    text: &[u8],
    out: &mut [u8; 983104],
) -> io::Result<()> {
    let listed = render(text, out);
    to.write_all(front(out, listed.length))?;
    if listed.refusal != 0 {
        return say_refused(err, b"verlist: ", text, listed.place, listed.refusal);
    }
    Ok(())
}

fn list(to: &impl Print, err: &impl Print, text: &[u8]) -> io::Result<()> {
    let mut out = [0u8; 983104];
    print_listing(to, err, text, &mut out)
}

fn main(rt: HostRuntime) -> io::Result<()> {
    let mut text = [0u8; 65537];
    let n = read_input(&mut rt.stdin(), &mut text)?;
    list(&rt, &rt.stderr(), front(&text, n))
}
