// The archive of `reading_rows`: the function that a host calls hands on to the one of `reading_rows` of the same name, which says what it does, and promises
// the same.
#![tactic(auto)]

ghost use Rattle.std.specs.Prelude.{◌≡◌, length};
ghost use Rattle.reading_rows.specs.Rows.{events_rows, events_told};

#[unsafe(no_mangle)]
pub extern "C" fn reading_events(source: u32, text: &[u8], rows: &mut [u64]) -> u64
    ensures { (result ≡ events_told source text.now (length rows.old))
        × (rows.new ≡ events_rows source text.now rows.old) }
{
    reading_rows::reading_events(source, text, rows)
}
