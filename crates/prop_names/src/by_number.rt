//! Names by the numbers of values.
ghost use Rattle.prop_names.specs.ByNumber.{NoneIsEmpty};

use cp_invlist::NoMemory;
use std::alloc::Global;
use std::collections::BTreeMap;

/// Names by the numbers of values, none of them empty: a value without a name has none here.
#[derive(Drop)]
pub struct NamesByNumber {
    names: BTreeMap<u32, String>,
    ghost filled: { NoneIsEmpty names },
}

impl NamesByNumber {
    ghost use Rattle.std.specs.Prelude.{◌≡◌, ◌<◌, ℕ, nat_eq, length, Some, None, is_some, IfOk, IfSome, OnOk, OnErr, if◌then◌else◌};
    ghost use Rattle.std.specs.Option.{option_copied};
    ghost use Rattle.std.specs.String.{string_bytes};
    ghost use Rattle.prop_names.specs.ValueNameTables.{name_at};

    /// No names.
    pub fn new(alloc: Global) -> NamesByNumber
        ensures { (n : ℕ) → name_at result n ≡ None }
    {
        NamesByNumber {
            names: BTreeMap::new(alloc),
        }
    }

    /// Whether the number has a name.
    pub fn contains_key(&self, number: u32) -> bool
        ensures { result ≡ is_some (name_at self.now number) }
    {
        self.names.contains_key(&number)
    }

    /// The name of the number.
    pub fn get(&self, number: u32) -> Option<&str>
        ensures value { option_copied result ≡ name_at self.now number }
        ensures filled { IfSome result (λ name. 0 < length name.now) }
    {
        Some(self.names.get(&number)?.as_str())
    }

    /// Gives the number this name, which isn't empty, in place of the name that it may have had. Where memory is refused nothing
    /// has changed.
    pub fn insert(&mut self, number: u32, name: String) -> Result<(), NoMemory>
        requires { 0 < length (string_bytes name) }
        ensures ok { OnOk result ((n : ℕ) → name_at self.new n ≡
            (if nat_eq number n then Some (string_bytes name) else name_at self.old n)) }
        ensures err { OnErr result ((n : ℕ) → name_at self.new n ≡ name_at self.old n) }
    {
        self.names.insert(number, name)?;
        Ok(())
    }

    /// The same names. `NoMemory` says that a request for memory was refused.
    pub fn copy(&self) -> Result<NamesByNumber, NoMemory>
        ensures { IfOk result (λ copy. (n : ℕ) → name_at copy n ≡ name_at self.now n) }
    {
        let names = self.names.clone()?;
        Ok(NamesByNumber { names })
    }
}
