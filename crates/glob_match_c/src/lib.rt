// The archive of `glob_match`: each function that a host calls hands on to the one of `glob_match::exports` of the same name, which says what it does, and
// promises the same.
#![tactic(auto)]

ghost use Rattle.std.specs.Prelude.{◌≡◌};
ghost use Rattle.numbers.specs.declared.Edition.TheVariants.{Reld};
ghost use Rattle.storing.specs.Keeping.{keep};
ghost use Rattle.glob_match.specs.Answers.{TellsStored, Unescapes, class_told, match_told, unasked_told};

#[unsafe(no_mangle)]
pub extern "C" fn glob_match_class(token: &[u8]) -> u64
    ensures { result ≡ class_told token.now }
{
    glob_match::exports::glob_match_class(token)
}

#[unsafe(no_mangle)]
pub extern "C" fn glob_match_unescape(pattern: &[u8], out: &mut [u8]) -> u64
    ensures { Unescapes pattern.now out.old result out.new }
{
    glob_match::exports::glob_match_unescape(pattern, out)
}

#[unsafe(no_mangle)]
pub extern "C" fn glob_match_store(token: &[u8], out: &mut [u8]) -> u64
    ensures { TellsStored (keep Reld token.now) out.old result out.new }
{
    glob_match::exports::glob_match_store(token, out)
}

#[unsafe(no_mangle)]
pub extern "C" fn glob_match_matches(stored: &[u8], name: &[u8]) -> u64
    ensures { result ≡ match_told Reld stored.now name.now }
{
    glob_match::exports::glob_match_matches(stored, name)
}

#[unsafe(no_mangle)]
pub extern "C" fn glob_match_tried(stored: &[u8], name: &[u8]) -> u64
    ensures { result ≡ unasked_told Reld stored.now name.now }
{
    glob_match::exports::glob_match_tried(stored, name)
}
