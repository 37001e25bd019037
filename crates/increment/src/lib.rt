// The increment of a text in place, and with it the upper bound of a LIKE pattern.
#![tactic(auto)]

ghost use Rattle.std.specs.Prelude.{◌≡◌, false, ◌+◌, ◌≤◌, ◌<◌, length, take};
ghost use Rattle.words.specs.Stores.{written};
ghost use Rattle.text.specs.Utf8.{Utf8};
ghost use Rattle.text.specs.Increment.{allowed, rise};
ghost use Rattle.text.specs.Chars.{chars_of};
ghost use Rattle.text.specs.Pattern.{prefix_of};
ghost use Rattle.text.specs.Wrote.{Wrote};
ghost use Rattle.text.specs.Upper.{rule, increment_of, upper_of};
ghost use Rattle.increment.specs.Outcome.{next_of, place_of, Outcome};

// Whether c may stand as a raised character (is_valid_unicode; surrogates, which char::from_u32 refuses there, are refused here).
#[tactic(auto, using(crate::proofs::Rule::gaps))]
fn is_valid_unicode(c: u32) -> bool
    ensures { result ≡ allowed c }
{
    match c {
        0xD800..=0xDFFF | 0xFDD0..=0xFDEF | 0xFFFE..=0xFFFF => false,
        _ => c <= 0x10FFFF,
    }
}

// The rule for one character: code point + 1, where that may stand.
fn next_char(c: char) -> Option<char>
    ensures { result ≡ next_of (rule c) }
{
    let d = u32::from(c) + 1;
    if is_valid_unicode(d) {
        char::from_u32(d)
    } else {
        None
    }
}

// Where the last character begins that can be raised, and what it is raised to.
fn find_rise(s: &str) -> Option<(usize, char)>
    ensures { result ≡ place_of (rise rule (chars_of s.now)) }
{
    for (at, c) in s.char_indices().rev() {
        if let Some(d) = next_char(c) {
            return Some((at, d));
        }
    }
    None
}

// Stores the bytes of a character from index at on, and answers where they end. Each has a store of its own: copy_from_slice would become
// a memcpy, which a program in C would have to bring.
fn put_bytes(text: &mut [u8], at: usize, bytes: &[u8]) -> usize
    requires { (at + length bytes.now ≤ length text.old) × (length bytes.now ≤ 4) }
    ensures { Wrote bytes.now at text.old text.new result }
{
    match bytes {
        [] => {}
        [b0] => {
            text[at] = *b0;
        }
        [b0, b1] => {
            text[at] = *b0;
            text[at + 1] = *b1;
        }
        [b0, b1, b2] => {
            text[at] = *b0;
            text[at + 1] = *b1;
            text[at + 2] = *b2;
        }
        [b0, b1, b2, b3] => {
            text[at] = *b0;
            text[at + 1] = *b1;
            text[at + 2] = *b2;
            text[at + 3] = *b3;
        }
        _ => unreachable!(),
    }
    at + bytes.len()
}

// Increments the text in the first len bytes (increment_utf8), in place; it can become one byte longer.
pub fn increment_utf8(text: &mut [u8], len: usize) -> Option<usize>
    requires { (len < length text.old) × Utf8 (take len text.old) }
    ensures { Outcome (increment_of (take len text.old)) text.old text.new result }
{
    // These bytes are UTF-8 by what the function requires, and the proof shows it; a test would read them all again.
    let old = unsafe { str::from_utf8_unchecked(&text[..len]) };
    let (at, c) = find_rise(old)?;
    let mut bytes = [0u8; 4];
    let raised = c.encode_utf8(&mut bytes).as_bytes();
    let end = put_bytes(text, at, raised);
    Some(end)
}

// Stores the prefix of a LIKE pattern at the front of out, and the pattern's upper bound over it (as in build_like_match).
pub fn upper_bound(pattern: &[u8], out: &mut [u8]) -> Option<usize>
    requires { Utf8 pattern.now × (length (prefix_of false pattern.now) < length out.old) }
    ensures { Outcome (upper_of pattern.now) (written (prefix_of false pattern.now) out.old) out.new result }
{
    let n = text::write_prefix(pattern, out, 0);
    if text::split_constant_prefix(pattern).is_empty() {
        return Some(n);
    }
    increment_utf8(out, n)
}
