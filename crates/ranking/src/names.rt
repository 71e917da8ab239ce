// What refuses a name that is looked up, before any line is.
ghost use Rattle.std.specs.Prelude.{◌≡◌};
ghost use Rattle.ranking.specs.Matching.{name_of};
ghost use Rattle.ranking.specs.Names.{name_refusal};

use numbers::{NAME_LIMIT, RAW_NAME_LIMIT, Refusal};
use utf8::is_utf8;

// Whether the names are refused; `long` says that what comes with them is over its limit.
pub fn name_refusal(raw: &[u8], demangled: &[u8], long: bool) -> Result<(), Refusal>
    ensures { result ≡ name_refusal (name_of raw.now demangled.now) long }
{
    if RAW_NAME_LIMIT < raw.len() || NAME_LIMIT < demangled.len() || long {
        return Err(Refusal::TooLong);
    }
    if is_utf8(raw) && is_utf8(demangled) {
        Ok(())
    } else {
        Err(Refusal::NameNotUtf8)
    }
}
