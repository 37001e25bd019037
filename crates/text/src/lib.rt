// Text as UTF-8, and LIKE: the prefix of a pattern and what is left from its first wildcard on.
#![tactic(auto)]

ghost use Rattle.std.specs.Prelude.{◌≡◌, false, ◌+◌, ◌≤◌, length};
ghost use Rattle.text.specs.Machine.{is_utf8};
ghost use Rattle.text.specs.Pattern.{prefix_of, rest_of};
ghost use Rattle.text.specs.Plain.{SplitPlain};
ghost use Rattle.text.specs.Wrote.{Wrote};

// Whether bytes are UTF-8.
pub fn is_utf8(s: &[u8]) -> bool
    ensures { result ≡ is_utf8 s.now }
{
    str::from_utf8(s).is_ok()
}

// The first byte of the unescaped prefix, and the pattern behind it; nothing at a wildcard and at the end.
// A backslash makes the byte behind it plain; a last one is itself.
fn split_plain(pattern: &[u8]) -> Option<(&u8, &[u8])>
    ensures { SplitPlain pattern.now result }
{
    let (first, rest) = pattern.split_first()?;
    match first {
        b'%' | b'_' => None,
        b'\\' => rest.split_first().or(Some((first, rest))),
        _ => Some((first, rest)),
    }
}

// The pattern from its first wildcard on, lent out of the caller's own slice (split_constant_prefix; write_prefix writes the prefix).
pub fn split_constant_prefix(pattern: &[u8]) -> &[u8]
    ensures { result.now ≡ rest_of false pattern.now }
{
    let mut rest = pattern;
    while let Some((_, behind)) = split_plain(rest) {
        rest = behind;
    }
    rest
}

// How many bytes the unescaped prefix has.
pub fn prefix_len(pattern: &[u8]) -> usize
    ensures { result ≡ length (prefix_of false pattern.now) }
{
    let mut rest = pattern;
    let mut n = 0;
    while let Some((_, behind)) = split_plain(rest) {
        rest = behind;
        n += 1;
    }
    n
}

// Stores the unescaped prefix into out from index to on, and answers where it ends (the prefix of split_constant_prefix).
pub fn write_prefix(pattern: &[u8], out: &mut [u8], to: usize) -> usize
    requires { to + length (prefix_of false pattern.now) ≤ length out.old }
    ensures { Wrote (prefix_of false pattern.now) to out.old out.new result }
{
    let mut rest = pattern;
    let mut n = to;
    while let Some((b, behind)) = split_plain(rest) {
        out[n] = *b;
        rest = behind;
        n += 1;
    }
    n
}
