//! Strings in order, cut to those that a list in order can have.
ghost use Rattle.std.specs.Prelude.{◌≡◌, ◌≤◌, ℕ, true, false, List, All, IfSome, length, map};
ghost use Rattle.std.specs.Cmp.Lexicographic.{slice_cmp};
ghost use Rattle.std.specs.List.{AllWithin, slice_get};
ghost use Rattle.std.specs.Ordering.{nat_cmp, is_lt, is_le};
ghost use Rattle.std.specs.String.{string_bytes};
ghost use Rattle.cp_strset.specs.StringList.{AreCanonical, holds};
ghost use Rattle.cp_strset_terms.specs.Cut.{IsBelowText, IsNotBelow};
ghost use Rattle.cp_strset_terms.specs.Places.{texts, IsAt};

/// An index up to which the text may be found among the strings: behind the last, or of one that isn't below it. The steps to it
/// double, so that it is near where few strings are below.
fn reach(strings: &[String], text: &str) -> usize
    ensures bound { result ≤ length strings.now }
    ensures ended { IfSome (slice_get strings.now result) (IsNotBelow text.now) }
{
    let mut end = 1;
    while end < strings.len() {
        if strings[end].as_str() >= text {
            return end;
        }
        end = end.saturating_mul(2);
    }
    strings.len()
}

/// How many of the strings are below the text. The search begins at the front.
fn count_below(strings: &[String], text: &str) -> usize
    requires { AreCanonical (map string_bytes strings.now) }
    ensures bound { result ≤ length strings.now }
    ensures below { AllWithin (IsBelowText text.now) strings.now 0 result }
    ensures behind { AllWithin (IsNotBelow text.now) strings.now result (length strings.now) }
{
    let end = reach(strings, text);
    strings[..end].partition_point(|string| string.as_str() < text)
}

/// The strings from the text on.
pub(crate) fn strings_from<'a>(strings: &'a [String], first: &str) -> &'a [String]
    requires { AreCanonical (map string_bytes strings.now) }
    ensures canonical { AreCanonical (map string_bytes result.now) }
    ensures same { (text : List ℕ) → is_lt (slice_cmp nat_cmp text first.now) ≡ false →
        holds (map string_bytes result.now) text ≡ holds (map string_bytes strings.now) text }
    ensures behind { All (IsNotBelow first.now) result.now }
{
    let start = count_below(strings, first);
    &strings[start..]
}

/// The strings up to the text.
fn strings_up_to<'a>(strings: &'a [String], last: &str) -> &'a [String]
    requires { AreCanonical (map string_bytes strings.now) }
    ensures canonical { AreCanonical (map string_bytes result.now) }
    ensures same { (text : List ℕ) → is_le (slice_cmp nat_cmp text last.now) ≡ true →
        holds (map string_bytes result.now) text ≡ holds (map string_bytes strings.now) text }
{
    let end = strings.partition_point(|string| string.as_str() <= last);
    &strings[..end]
}

/// The strings from the first of the list up to its last.
pub(crate) fn strings_among<'a>(list: &[&str], strings: &'a [String]) -> &'a [String]
    requires list { AreCanonical (texts list.now) }
    requires strings { AreCanonical (map string_bytes strings.now) }
    ensures canonical { AreCanonical (map string_bytes result.now) }
    ensures same { (place : ℕ) (text : List ℕ) → IsAt (texts list.now) place text →
        holds (map string_bytes result.now) text ≡ holds (map string_bytes strings.now) text }
{
    let (Some(first), Some(last)) = (list.first(), list.last()) else {
        return strings;
    };
    strings_up_to(strings_from(strings, first), last)
}
