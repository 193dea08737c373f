//! Names compared loosely.
ghost use Rattle.std.specs.Prelude.{◌≡◌, ◌<◌, All, IfOk};
ghost use Rattle.std.specs.Cmp.Lexicographic.{slice_cmp};
ghost use Rattle.std.specs.Ordering.{nat_cmp};
ghost use Rattle.std.specs.String.{string_bytes};
ghost use Rattle.prop_names.specs.Folding.{is_ignored, stored_folding, query_folding};

use cp_invlist::NoMemory;
use std::alloc::Global;
use std::cmp::Ordering;

fn is_ignored(byte: u8) -> bool
    ensures { result ≡ is_ignored byte }
{
    matches!(byte, 0x09..=0x0D | b' ' | b'_' | b'-')
}

/// The folding of a name that is stored: in lower case, without `_`. The name is ASCII. `NoMemory` says that a request
/// for memory was refused.
pub fn stored_folding(alloc: Global, name: &[u8]) -> Result<String, NoMemory>
    requires ascii { All (λ c. c < 128) name.now }
    ensures { IfOk result (λ text. string_bytes text ≡ stored_folding name.now) }
{
    let mut folded = String::with_capacity(alloc, name.len())?;
    for byte in name {
        if *byte != b'_' {
            folded.push(char::from(byte.to_ascii_lowercase()))?;
        }
    }
    Ok(folded)
}

/// The text of a name, which is ASCII. `NoMemory` says that a request for memory was refused.
pub fn ascii_text(alloc: Global, name: &[u8]) -> Result<String, NoMemory>
    requires ascii { All (λ c. c < 128) name.now }
    ensures { IfOk result (λ text. string_bytes text ≡ name.now) }
{
    let mut text = String::with_capacity(alloc, name.len())?;
    for byte in name {
        text.push(char::from(*byte))?;
    }
    Ok(text)
}

/// The order of a folded name that is stored and the folding of a query: in lower case, without U+0009 to U+000D, U+0020, `_`
/// and hyphens. The query is folded as it is compared.
pub(crate) fn compare_folded(stored: &[u8], query: &[u8]) -> Ordering
    ensures { result ≡ slice_cmp nat_cmp stored.now (query_folding query.now) }
{
    let mut rest = stored;
    for byte in query {
        if is_ignored(*byte) {
            continue;
        }
        let Some((first, behind)) = rest.split_first() else {
            return Ordering::Less;
        };
        match first.cmp(&byte.to_ascii_lowercase()) {
            Ordering::Equal => rest = behind,
            other => return other,
        }
    }
    match rest.split_first() {
        None => Ordering::Equal,
        Some(_) => Ordering::Greater,
    }
}
