// Document 01's text cases that are run, with some more. A line for each pattern: its bytes, prefix, rest and upper bound, in hex.
#![tactic(auto)]

ghost use Rattle.std.specs.Prelude.{◌<◌, length};
ghost use Rattle.text.specs.Utf8.{Utf8};

use std::io;

// Prints bytes in hex, and a dash for none.
fn show(rt: &impl Print, s: &[u8]) -> io::Result<()> {
    if s.is_empty() {
        print!(rt; "-")?;
    }
    for b in s {
        print!(rt; "{:02x}", b)?;
    }
    Ok(())
}

// Prints the unescaped prefix.
fn show_prefix(rt: &impl Print, pattern: &[u8]) -> io::Result<()>
    requires { length pattern.now < 64 }
{
    let mut out = [0u8; 64];
    let n = text::write_prefix(pattern, &mut out, 0);
    print!(rt; " prefix ")?;
    show(rt, &out[..n])
}

// Prints what is left from the first wildcard on.
fn show_rest(rt: &impl Print, pattern: &[u8]) -> io::Result<()> {
    print!(rt; " rest ")?;
    show(rt, text::split_constant_prefix(pattern))
}

// Prints the upper bound, or that there is none.
fn show_upper(rt: &impl Print, pattern: &[u8]) -> io::Result<()>
    requires { (length pattern.now < 64) × Utf8 pattern.now }
{
    let mut out = [0u8; 64];
    let end = increment::upper_bound(pattern, &mut out);
    print!(rt; " upper ")?;
    match end {
        Some(n) => show(rt, &out[..n]),
        None => print!(rt; "unhandled"),
    }
}

// Prints the line of a pattern.
fn run(rt: &impl Print, pattern: &[u8]) -> io::Result<()> {
    print!(rt; "pattern ")?;
    show(rt, pattern)?;
    if 64 <= pattern.len() {
        return println!(rt; " too long");
    }
    if text::is_utf8(pattern) {
        show_prefix(rt, pattern)?;
        show_rest(rt, pattern)?;
        show_upper(rt, pattern)?;
        return println!(rt;);
    }
    println!(rt; " not UTF-8")
}

// A prefix; U+D7FF, before the surrogates; U+10FFFF, the last code point.
fn prefixes(rt: &impl Print) -> io::Result<()> {
    run(rt, b"ab%")?;
    run(rt, b"a\xED\x9F\xBF%")?;
    run(rt, b"\xF4\x8F\xBF\xBF%")
}

// No prefix, no wildcard.
fn parts_missing(rt: &impl Print) -> io::Result<()> {
    run(rt, b"")?;
    run(rt, b"%")?;
    run(rt, b"_b")?;
    run(rt, b"ab")
}

// A last backslash, escaped wildcards, an escaped backslash.
fn backslashes(rt: &impl Print) -> io::Result<()> {
    run(rt, b"a\\")?;
    run(rt, b"\\%\\")?;
    run(rt, b"a\\_b%")?;
    run(rt, b"a\\\\_%")?;
    run(rt, b"foo\\%%")
}

// U+7F, which grows by a byte; U+FDCF and U+FFFD, before a gap; U+FFFF, in one.
fn gaps(rt: &impl Print) -> io::Result<()> {
    run(rt, b"\x7F_")?;
    run(rt, b"a\xEF\xB7\x8F%")?;
    run(rt, b"\xEF\xBF\xBD%")?;
    run(rt, b"\xEF\xBF\xBF%")
}

// No UTF-8: a surrogate, a character cut short.
fn faults(rt: &impl Print) -> io::Result<()> {
    run(rt, b"\xED\xA0\x80%")?;
    run(rt, b"a\xC3%")
}

fn main(rt: HostRuntime) -> io::Result<()> {
    prefixes(&rt)?;
    parts_missing(&rt)?;
    backslashes(&rt)?;
    gaps(&rt)?;
    faults(&rt)
}
