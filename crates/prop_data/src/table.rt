//! The kinds of tables, and their names.
ghost use Rattle.std.specs.Prelude.{◌≡◌, ◌<◌, length, IfSome};
ghost use Rattle.std.specs.List.{position};
ghost use Rattle.std.specs.Str.{bytes_eq};
ghost use Rattle.prop_data.specs.TableKind.{kind_word};
ghost use Rattle.prop_data.specs.declared.table.DataError.TheVariants.{NoMemory as OutOfMemory};

use cp_invlist::NoMemory;
use prop_binary::{EmojiTable, SetTable};
use prop_values::{MapTable, NamesTable};
use thiserror::Error;

/// A kind of table.
#[derive(Clone, Copy, Debug, PartialEq, Eq)]
pub enum TableKind {
    /// Sets.
    Set,
    /// Maps.
    Map,
    /// Names of values.
    Names,
    /// Long names.
    Long,
    /// Short names.
    Short,
    /// Scripts with extensions.
    Scripts,
    /// Extension lists.
    Extensions,
    /// Emoji sets.
    Emoji,
}

impl TableKind {
    ghost use Rattle.prop_data.specs.TableKind.{kind_word, kind_of_word};

    /// The kinds, each once.
    pub const ALL: [TableKind; 8] = [
        TableKind::Set,
        TableKind::Map,
        TableKind::Names,
        TableKind::Long,
        TableKind::Short,
        TableKind::Scripts,
        TableKind::Extensions,
        TableKind::Emoji,
    ];

    /// The word that each header of the kind begins with.
    pub fn word(self) -> &'static str
        ensures { result.now ≡ kind_word self }
    {
        match self {
            TableKind::Set => "set",
            TableKind::Map => "map",
            TableKind::Names => "names",
            TableKind::Long => "long",
            TableKind::Short => "short",
            TableKind::Scripts => "scx",
            TableKind::Extensions => "ext",
            TableKind::Emoji => "emoji",
        }
    }

    /// The kind whose headers begin with this word, compared byte for byte. `None` where no kind's do.
    pub fn from_word(word: &[u8]) -> Option<TableKind>
        ensures { result ≡ kind_of_word word.now }
    {
        let place = place_of(&TableKind::ALL, word)?;
        Some(TableKind::ALL[place])
    }
}

/// The index of the first of the kinds whose headers begin with this word.
fn place_of(kinds: &[TableKind], word: &[u8]) -> Option<usize>
    ensures place { result ≡ position (λ kind. bytes_eq (kind_word kind) word.now) kinds.now }
    ensures within { IfSome result (λ place. place < length kinds.now) }
{
    kinds.iter().position(|kind| kind.word().as_bytes() == word)
}

/// A table that a call needs.
#[derive(Clone, Copy, Debug, PartialEq, Eq)]
pub enum TableName {
    /// The set of a binary property.
    Set(SetTable),
    /// The map of a property.
    Map(MapTable),
    /// The names of a property's values.
    Names(NamesTable),
    /// The long names of a property's values.
    Long(MapTable),
    /// The short names of a property's values.
    Short(MapTable),
    /// The scripts with extensions.
    Scripts,
    /// An emoji set.
    Emoji(EmojiTable),
}

/// Why a database gave no answer.
#[derive(Clone, Copy, Debug, Drop, PartialEq, Eq, Error)]
pub enum DataError {
    /// The database has no such table.
    #[error("Absent")]
    Absent {
        /// The table that the call needs.
        table: TableName,
    },
    /// A request for memory was refused.
    #[error("NoMemory")]
    NoMemory,
}

impl From<NoMemory> for DataError {
    ghost from_gives = { λ _ e. e ≡ OutOfMemory };

    fn from(_error: NoMemory) -> DataError {
        DataError::NoMemory
    }
}
