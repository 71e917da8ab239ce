// Reading, from bytes to events: version scripts, export lists and the texts of `add_symbol`. A cursor of plain numbers goes in with the text, and out come
// one event and the next cursor, the end, or a refusal with its number and its place. It knows syntax only, and holds no buffer. Definitions: specs/,
// from document 01, 'Reading'.
#![tactic(auto)]

pub mod scripts;
