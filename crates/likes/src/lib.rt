// The form of LIKE, written into a lent table and a lent literal pool.
#![tactic(auto)]

ghost use Rattle.std.specs.Prelude.{◌≡◌, ◌^◌, ◌<◌, length};
ghost use Rattle.literals.specs.declared.Literal.TheVariants.{Text};
ghost use Rattle.table.specs.Comparisons.{wrapped, like_form};
ghost use Rattle.listing.specs.Listing.{Few};
ghost use Rattle.writing.specs.Writing.{RoomFor, WroteBy};

use kleene::Joining;
use literals::Literal;
use operators::Operator;
use predicate::Column;
use statistics::Statistic;
use words::Range;
use writing::Writer;

// A text as a literal over itself.
fn whole(text: &[u8]) -> Literal
    ensures { result ≡ Text (record { at = 0; len = length text.now }) }
{
    let len = text.len();
    Literal::Text(Range { at: 0, len })
}

// Writes least ≤ upper AND prefix ≤ greatest: build_like_match.
fn build_like_match(w: &mut Writer<'_>, c: Column, prefix: &[u8], upper: &[u8])
    requires { Few w.old.list.now × (length prefix.now < 2 ^ 14) × (length upper.now < 2 ^ 14) × RoomFor (like_form c prefix.now upper.now) w.old }
    ensures { WroteBy (like_form c prefix.now upper.now) w.old w.new }
{
    let u = whole(upper);
    let p = whole(prefix);
    w.put_join(Joining::And);
    w.write_against(upper, Operator::AtMost, Statistic::Least(c), false, u);
    w.write_against(prefix, Operator::AtMost, Statistic::Greatest(c), true, p);
}

// Writes the form of LIKE with a prefix and an upper bound.
pub fn write_like(w: &mut Writer<'_>, c: Column, prefix: &[u8], upper: &[u8])
    requires { Few w.old.list.now × (length prefix.now < 2 ^ 14) × (length upper.now < 2 ^ 14) × RoomFor (wrapped c (like_form c prefix.now upper.now)) w.old }
    ensures { WroteBy (wrapped c (like_form c prefix.now upper.now)) w.old w.new }
{
    w.wrap_null_count_check_expr(c);
    build_like_match(w, c, prefix, upper);
}
