//! Names of variables.
ghost use Rattle.std.specs.Prelude.{◌≡◌, ◌<◌, None, length, IfNone, IfSome};
ghost use Rattle.uset_read.specs.Names.{name_at, NameIs};

use crate::text::{skip_all, split_first};
use cp_invlist::CodePointInversionList;
use uset_grammar::laws::cut_by_a_test;

/// The longest name at the front of the text, and the text behind it. `None` where no name begins there.
pub fn read_name<'a>(
    start: &CodePointInversionList,
    continuing: &CodePointInversionList,
    text: &'a str,
) -> Option<(&'a str, &'a str)>
    ensures none { IfNone result (name_at start.now continuing.now text.now ≡ None) }
    ensures some { IfSome result (λ p. NameIs start.now continuing.now text.now p.0.now p.1.now) }
    ensures shorter { IfSome result (λ p. length p.1.now < length text.now) }
{
    let (first, behind) = split_first(text)?;
    if !start.contains(first) {
        return None;
    }
    cut_by_a_test();
    let rest = skip_all(continuing, behind);
    Some((&text[..text.len() - rest.len()], rest))
}
