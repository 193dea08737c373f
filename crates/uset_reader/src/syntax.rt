//! What patterns are read by.
ghost use Rattle.std.specs.Prelude.{◌≡◌, ℕ, true, false};
ghost use Rattle.std.specs.Char.{is_ascii_graphic};
ghost use Rattle.cp_invlist.specs.InversionList.{contains};
ghost use Rattle.uset_grammar.specs.Escape.{Apart};

use cp_invlist::CodePointInversionList;
use prop_data::{PropertyDatabase, SetTable};
use uset_read::skip_white_space;
use uset_variables::VariableMap;

/// What patterns are read by: the three tables of the syntax (UAX 31), white space of patterns and the characters that
/// begin and continue a name; the variables; and the database, which has the sets of properties.
#[derive(Clone, Copy)]
pub struct Syntax<'a> {
    pub(crate) white_space: &'a CodePointInversionList,
    pub(crate) start: &'a CodePointInversionList,
    pub(crate) continuing: &'a CodePointInversionList,
    pub(crate) variables: &'a VariableMap,
    pub(crate) database: &'a PropertyDatabase,
    ghost apart: { Apart (contains white_space.now) },
    ghost letter: { contains white_space.now 0x61 ≡ false },
    ghost visible: { (c : ℕ) → is_ascii_graphic c ≡ true → contains white_space.now c ≡ false },
}

impl<'a> Syntax<'a> {
    ghost use Rattle.std.specs.Prelude.{◌≡◌, ◌≤◌, length, option_map, IfSome};
    ghost use Rattle.std.specs.Str.{chars};
    ghost use Rattle.cp_invlist.specs.InversionList.{contains};
    ghost use Rattle.uset_grammar.specs.Text.{skip};
    ghost use Rattle.prop_data.specs.Database.{tables_of};
    ghost use Rattle.uset_variables.specs.Variables.{variables_of};
    ghost use Rattle.uset_reader.specs.Syntaxes.{language_of, language_seen, database_seen};

    /// The syntax of the database's own tables, with these variables. `None` where one of the three is absent.
    pub fn of(variables: &'a VariableMap, database: &'a PropertyDatabase) -> Option<Syntax<'a>>
        ensures language { option_map language_seen result ≡
            language_of (variables_of variables.now) (tables_of database.now) }
        ensures database { IfSome result (λ syntax. database_seen syntax ≡ database.now) }
    {
        let white_space = database.set(SetTable::PATTERN_WHITE_SPACE)?;
        let start = database.set(SetTable::XID_START)?;
        let continuing = database.set(SetTable::XID_CONTINUE)?;
        Some(Syntax {
            white_space,
            start,
            continuing,
            variables,
            database,
        })
    }

    /// The text without the white space in front. A visible ASCII character, which most texts begin with, is none: its byte
    /// tells, and nothing is decoded.
    pub(crate) fn skip_white_space<'t>(&self, text: &'t str) -> &'t str
        ensures skipped { chars result.now ≡ skip (contains self.now.white_space.now) (chars text.now) }
        ensures within { length result.now ≤ length text.now }
    {
        match text.as_bytes().first() {
            Some(first) if first.is_ascii_graphic() => text,
            _ => skip_white_space(self.white_space, text),
        }
    }
}
