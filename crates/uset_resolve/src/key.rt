//! Keys of the properties whose values have names, and the words for truth and falsehood.
ghost use Rattle.std.specs.Prelude.{◌≡◌, ◌||◌, find, map, option_map};
ghost use Rattle.std.specs.Char.{to_ascii_lowercase};
ghost use Rattle.std.specs.List.{list_any};
ghost use Rattle.std.specs.Str.{bytes_eq};
ghost use Rattle.uset_resolve.specs.Keys.{folded, key_of, falsy};
ghost use Rattle.uset_resolve.specs.Sources.{AreKeys};

use prop_values::{MapTable, NamesTable};

/// What the value behind a key names.
#[derive(Clone, Copy)]
pub(crate) enum Key {
    /// A group of general categories.
    Categories,
    /// A script among the script extensions.
    Extensions,
    /// A value of another property, with its table of values and that of their names.
    Values(MapTable, NamesTable),
}

/// A key by its names as a key is compared with them: in lower case, without `_`.
struct NamedKey {
    long: &'static [u8],
    short: &'static [u8],
    key: Key,
}

impl NamedKey {
    /// Whether the key has one of the names.
    fn has_name(&self, key: &[u8]) -> bool
        ensures { result ≡ (bytes_eq self.now.long.now (folded key.now)
            || bytes_eq self.now.short.now (folded key.now)) }
    {
        is_folding(self.long, key) || is_folding(self.short, key)
    }
}

/// The keys.
const KEYS: [NamedKey; 11] = [
    NamedKey {
        long: b"generalcategory",
        short: b"gc",
        key: Key::Categories,
    },
    NamedKey {
        long: b"graphemeclusterbreak",
        short: b"gcb",
        key: Key::Values(
            MapTable::GRAPHEME_CLUSTER_BREAK,
            NamesTable::GRAPHEME_CLUSTER_BREAK,
        ),
    },
    NamedKey {
        long: b"indicconjunctbreak",
        short: b"incb",
        key: Key::Values(
            MapTable::INDIC_CONJUNCT_BREAK,
            NamesTable::INDIC_CONJUNCT_BREAK,
        ),
    },
    NamedKey {
        long: b"linebreak",
        short: b"lb",
        key: Key::Values(MapTable::LINE_BREAK, NamesTable::LINE_BREAK),
    },
    NamedKey {
        long: b"script",
        short: b"sc",
        key: Key::Values(MapTable::SCRIPT, NamesTable::SCRIPT),
    },
    NamedKey {
        long: b"sentencebreak",
        short: b"sb",
        key: Key::Values(MapTable::SENTENCE_BREAK, NamesTable::SENTENCE_BREAK),
    },
    NamedKey {
        long: b"wordbreak",
        short: b"wb",
        key: Key::Values(MapTable::WORD_BREAK, NamesTable::WORD_BREAK),
    },
    NamedKey {
        long: b"eastasianwidth",
        short: b"ea",
        key: Key::Values(MapTable::EAST_ASIAN_WIDTH, NamesTable::EAST_ASIAN_WIDTH),
    },
    NamedKey {
        long: b"canonicalcombiningclass",
        short: b"ccc",
        key: Key::Values(
            MapTable::CANONICAL_COMBINING_CLASS,
            NamesTable::CANONICAL_COMBINING_CLASS,
        ),
    },
    NamedKey {
        long: b"scriptextensions",
        short: b"scx",
        key: Key::Extensions,
    },
    NamedKey {
        long: b"block",
        short: b"blk",
        key: Key::Values(MapTable::BLOCK, NamesTable::BLOCK),
    },
];

/// The words for a binary property that a code point has.
const TRUE: [&str; 4] = ["true", "t", "yes", "y"];

/// The words for one that it lacks.
const FALSE: [&str; 4] = ["false", "f", "no", "n"];

/// Whether the name is the key in lower case, without `_`. The key is folded as it is compared.
fn is_folding(name: &[u8], key: &[u8]) -> bool
    ensures { result ≡ bytes_eq name.now (folded key.now) }
{
    let mut rest = name;
    for byte in key {
        if *byte == b'_' {
            continue;
        }
        match rest.split_first() {
            Some((first, behind)) if *first == byte.to_ascii_lowercase() => rest = behind,
            _ => return false,
        }
    }
    rest.is_empty()
}

/// What the first of the keys with this name asks.
fn first_named(keys: &[NamedKey], key: &[u8]) -> Option<Key>
    ensures { result ≡ option_map (λ k. k.key)
        (find (λ k. bytes_eq k.long.now (folded key.now) || bytes_eq k.short.now (folded key.now)) keys.now) }
{
    let named = keys.iter().find(|named| named.has_name(key))?;
    Some(named.key)
}

/// What a key asks, where its values have names.
pub(crate) fn key_of(key: &[u8]) -> Option<Key>
    ensures { AreKeys result (key_of key.now) }
{
    first_named(&KEYS, key)
}

/// Whether the words are the same, ASCII case ignored.
fn is_same_word(one: &str, other: &str) -> bool
    ensures { result ≡ bytes_eq (map to_ascii_lowercase one.now) (map to_ascii_lowercase other.now) }
{
    one.eq_ignore_ascii_case(other)
}

/// Whether the word is one of these, ASCII case ignored.
fn is_one_of(words: &[&str], word: &str) -> bool
    ensures { result ≡
        list_any (λ w. bytes_eq (map to_ascii_lowercase w.now) (map to_ascii_lowercase word.now)) words.now }
{
    words.iter().any(|known| is_same_word(known, word))
}

/// Whether the word stands for falsehood. `None` where it is no word for that or for truth, ASCII case ignored.
pub(crate) fn falsy(word: &str) -> Option<bool>
    ensures { result ≡ falsy word.now }
{
    if is_one_of(&TRUE, word) {
        return Some(false);
    }
    if is_one_of(&FALSE, word) {
        return Some(true);
    }
    None
}
