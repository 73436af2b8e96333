//! The refusals of a service, in words.
ghost use Rattle.std.specs.Prelude.{◌≡◌};
ghost use Rattle.compose_session.specs.Refusals as words;

/// Returns the words for the code of a refusal. O(1).
pub fn refusal_words(code: u16) -> &'static str
    ensures { result.now ≡ words.refusal_words code }
{
    match code {
        1 => "a session with this number is open",
        2 => "no session with this number is open",
        3 => "no further session can be opened",
        4 => "the key is no keysym",
        5 => "the load is no bundle",
        6 => "the table is refused",
        7 => "the certificate can't be read",
        8 =>
            "the certificate is not valid: the new table does not follow the one in use, more keys may be pending than its bound, its typings are not those of the repertoire, or its fresh keys may not be fresh",
        9 => "the service is out of memory",
        10 => "the request is malformed",
        _ => "for a reason that is not known",
    }
}
