//! Whether script extensions have a script, by the numbers that stand for them.
ghost use Rattle.std.specs.Prelude.{◌≡◌};
ghost use Rattle.prop_query.specs.ScriptTypes.{table_of};
ghost use Rattle.prop_query.specs.Found.{AreFound};

use crate::script::ScriptWithExtensionsBorrowed;
use cp_trie::ValueTest;
use prop_values::{Script, ScriptWithExt};

/// The numbers below this one may stand for a list.
const LISTED: usize = 4096;

/// The test that the numbers pass which stand for script extensions with a script among them.
#[derive(Drop)]
pub struct HasScript<'a> {
    scripts: ScriptWithExtensionsBorrowed<'a>,
    /// The number of the script.
    script: u16,
    /// What was found for each number that may stand for a list: many runs have one list, which is gone along once.
    found: [Option<bool>; LISTED],
    ghost right: { AreFound (table_of scripts) script found },
}

impl<'a> HasScript<'a> {
    pub(super) fn new(scripts: ScriptWithExtensionsBorrowed<'a>, script: Script) -> HasScript<'a>
        ensures scripts { result.scripts ≡ scripts.entry }
        ensures script { result.script ≡ script }
    {
        HasScript {
            scripts,
            script: script.to_icu4c_value(),
            found: [None; LISTED],
        }
    }
}

impl ValueTest<ScriptWithExt> for HasScript<'_> {
    ghost use Rattle.prop_query.specs.Scripts.{number_has};
    ghost use Rattle.prop_query.specs.ScriptTypes.{table_of};

    ghost passes = { λ test number. number_has (table_of test.scripts) test.script number };

    fn passes(&mut self, number: ScriptWithExt) -> bool {
        let place = usize::from(number.0);
        if place >= LISTED {
            return self.scripts.number_has(number, self.script);
        }
        if let Some(has) = self.found[place] {
            return has;
        }
        let has = self.scripts.number_has(number, self.script);
        self.found[place] = Some(has);
        has
    }
}
