// LIKE's table, written from its pattern: prefix and upper bound are made in local buffers.
#![tactic(auto)]

ghost use Rattle.std.specs.Prelude.{false, ◌^◌, ◌≤◌, ◌<◌, length};
ghost use Rattle.limits.specs.Limits.{max_literal_bytes};
ghost use Rattle.literals.specs.Literals.{value_of};
ghost use Rattle.text.specs.Utf8.{Utf8};
ghost use Rattle.text.specs.Pattern.{prefix_of};
ghost use Rattle.text.specs.Upper.{upper_of};
ghost use Rattle.predicate.specs.Accepted.{Pattern};
ghost use Rattle.table.specs.Comparisons.{wrapped, like_form, bounded_form, like_table};
ghost use Rattle.listing.specs.Listing.{Few};
ghost use Rattle.writing.specs.Writing.{RoomFor, WroteBy};

use literals::Literal;
use predicate::Column;
use writing::Writer;

// Writes the form of LIKE with a pattern whose upper bound is known.
#[tactic(auto, using(text::specs::Upper::prefix_length))]
fn write_between(w: &mut Writer<'_>, c: Column, pattern: &[u8], upper: &[u8])
    requires { Few w.old.list.now × (length pattern.now ≤ max_literal_bytes) × (length upper.now < 2 ^ 14) × RoomFor (wrapped c (like_form c (prefix_of false pattern.now) upper.now)) w.old }
    ensures { WroteBy (wrapped c (like_form c (prefix_of false pattern.now) upper.now)) w.old w.new }
{
    // No heap: room for the longest prefix, with how many bytes of it are in use.
    let mut prefix = [0; limits::MAX_LITERAL_BYTES];
    let n = text::write_prefix(pattern, &mut prefix, 0);
    likes::write_like(w, c, &prefix[..n], upper);
}

// Writes the form of LIKE with a pattern that is a text, and true where it has no upper bound.
#[tactic(auto, using(text::specs::Upper::prefix_length))]
fn write_pattern(w: &mut Writer<'_>, c: Column, pattern: &[u8])
    requires { Few w.old.list.now × Utf8 pattern.now × (length pattern.now ≤ max_literal_bytes) × RoomFor (bounded_form c (prefix_of false pattern.now) (upper_of pattern.now)) w.old }
    ensures { WroteBy (bounded_form c (prefix_of false pattern.now) (upper_of pattern.now)) w.old w.new }
{
    // No heap: room for the longest upper bound, with how many bytes of it are in use.
    let mut upper = [0; limits::MAX_TABLE_TEXT_BYTES];
    match increment::upper_bound(pattern, &mut upper) {
        Some(n) => write_between(w, c, pattern, &upper[..n]),
        None => w.write_always(true),
    }
}

// Writes the table of LIKE or NOT LIKE, and true where it is unhandled.
pub fn write_matching(w: &mut Writer<'_>, input: &[u8], negated: bool, c: Column, l: Literal)
    requires { Few w.old.list.now × Pattern (value_of input.now l) × RoomFor (like_table negated c (value_of input.now l)) w.old }
    ensures { WroteBy (like_table negated c (value_of input.now l)) w.old w.new }
{
    match l {
        Literal::Text(r) if !negated => write_pattern(w, c, knowing::clipped(input, r)),
        _ => w.write_always(true),
    }
}
