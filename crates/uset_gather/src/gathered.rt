//! What a bracket gathers.
use crate::operand::Operand;
use crate::painting::Painting;
use cp_invlist::{CodePointRange, NoMemory};
use cp_strset::{CodePointInversionListAndStringList, Strings};
use std::alloc::Global;
use std::mem::replace;

/// A set in the making. A bracket that closes gives it to the one around it, and only that of the outermost
/// one is made a list. Where memory is refused while a set is gathered into it, it is empty then.
pub struct Gathered {
    code_points: Painting,
    strings: Strings,
}

// By hand, so that letting a value go is one call in each proof.
impl Drop for Gathered {
    fn drop(self) {
        let Self {
            code_points: _,
            strings: _,
        } = self;
    }
}

impl Gathered {
    ghost use Rattle.std.specs.Prelude.{◌≡◌, ◌≤◌, ◌||◌, ◌&&◌, not, ℕ, List, None, IfOk, OnOk, OnErr};
    ghost use Rattle.std.specs.BTreeSet.{contains_text};
    ghost use Rattle.std.specs.Str.{chars};
    ghost use Rattle.std.specs.String.{string_bytes};
    ghost use Rattle.cp_strset.specs.StringList.{sole_of};
    ghost use Rattle.uset_grammar.specs.Tree.{Member, in_range, negation};
    ghost use Rattle.uset_gather.specs.Gathered.{gathered_in, HasMembers, IsEmpty, is_string, operand_in, in_set};

    /// Nothing yet.
    pub fn new(alloc: Global) -> Gathered
        ensures { IsEmpty result }
    {
        Gathered {
            code_points: Painting::new(alloc),
            strings: Strings::new(alloc),
        }
    }

    /// Adds the code points of the range. Where memory is refused nothing has changed.
    pub fn add_range(&mut self, range: CodePointRange) -> Result<(), NoMemory>
        requires { range.end ≤ 0x10_FFFF }
        ensures ok { OnOk result
            (HasMembers self.new (λ m. gathered_in self.old m || in_range range.start range.end m)) }
        ensures err { OnErr result (HasMembers self.new (gathered_in self.old)) }
    {
        self.code_points.add_range(range)
    }

    /// Adds a string, which isn't one character. Where memory is refused nothing has changed.
    pub fn add_text(&mut self, text: String) -> Result<(), NoMemory>
        requires { sole_of (chars (string_bytes text)) ≡ None }
        ensures ok { OnOk result
            (HasMembers self.new (λ m. gathered_in self.old m || is_string (string_bytes text) m)) }
        ensures err { OnErr result (HasMembers self.new (gathered_in self.old)) }
    {
        self.strings.insert(text)
    }

    /// What was gathered of each kind.
    fn into_parts(self) -> (Painting, Strings)
        ensures code_points { result.0 ≡ self.code_points }
        ensures strings { result.1 ≡ self.strings }
    {
        let Self {
            code_points,
            strings,
        } = self;
        (code_points, strings)
    }

    /// Adds the members of the operand. Where memory is refused the set is empty.
    pub fn join(&mut self, alloc: Global, operand: Operand<'_>) -> Result<(), NoMemory>
        ensures ok { OnOk result (HasMembers self.new (λ m. gathered_in self.old m || operand_in operand.entry m)) }
        ensures err { OnErr result (IsEmpty self.new) }
    {
        let Err(refused) = self.try_join(alloc, operand) else {
            return Ok(());
        };
        *self = Gathered::new(alloc);
        Err(refused)
    }

    /// Adds the members of the operand.
    fn try_join(&mut self, alloc: Global, operand: Operand<'_>) -> Result<(), NoMemory>
        ensures { OnOk result (HasMembers self.new (λ m. gathered_in self.old m || operand_in operand.entry m)) }
    {
        match operand {
            Operand::Gathered(other) => {
                let (code_points, strings) = other.into_parts();
                self.code_points.join(code_points)?;
                self.join_strings(alloc, strings)
            }
            Operand::Set(set) => {
                self.code_points.add_set(set.code_points())?;
                if !set.strings().is_empty() {
                    let own = replace(&mut self.strings, Strings::new(alloc));
                    self.strings = own.insert_copies(alloc, set)?;
                }
                Ok(())
            }
            Operand::CodePoints(source) => self.code_points.add_set(source.list()),
            Operand::Complement(source) => self.code_points.add_outside(source.list()),
        }
    }

    /// Adds the strings. Mostly one side has none.
    fn join_strings(&mut self, alloc: Global, strings: Strings) -> Result<(), NoMemory>
        ensures code_points { self.new.code_points ≡ self.old.code_points }
        ensures strings { OnOk result ((bytes : List ℕ) → contains_text self.new.strings bytes ≡
            (contains_text self.old.strings bytes || contains_text strings bytes)) }
    {
        if strings.is_empty() {
            return Ok(());
        }
        if self.strings.is_empty() {
            self.strings = strings;
            return Ok(());
        }
        let own = replace(&mut self.strings, Strings::new(alloc));
        self.strings = own.append(strings)?;
        Ok(())
    }

    /// Takes the members of the operand away. Where memory is refused the set is empty.
    pub fn remove(&mut self, alloc: Global, operand: Operand<'_>) -> Result<(), NoMemory>
        ensures ok { OnOk result (HasMembers self.new (λ m. gathered_in self.old m && not (operand_in operand.entry m))) }
        ensures err { OnErr result (IsEmpty self.new) }
    {
        let Err(refused) = self.try_remove(operand) else {
            return Ok(());
        };
        *self = Gathered::new(alloc);
        Err(refused)
    }

    /// Takes the members of the operand away.
    fn try_remove(&mut self, operand: Operand<'_>) -> Result<(), NoMemory>
        ensures { OnOk result (HasMembers self.new (λ m. gathered_in self.old m && not (operand_in operand.entry m))) }
    {
        match operand {
            Operand::Gathered(other) => {
                let (code_points, strings) = other.into_parts();
                self.strings.remove_all(strings);
                self.code_points.remove(code_points)
            }
            Operand::Set(set) => {
                self.strings.remove_listed(set);
                self.code_points.remove_set(set.code_points())
            }
            Operand::CodePoints(source) => self.code_points.remove_set(source.list()),
            Operand::Complement(source) => self.code_points.retain_set(source.list()),
        }
    }

    /// Keeps only the members of the operand. Where memory is refused the set is empty.
    pub fn retain(&mut self, alloc: Global, operand: Operand<'_>) -> Result<(), NoMemory>
        ensures ok { OnOk result (HasMembers self.new (λ m. gathered_in self.old m && operand_in operand.entry m)) }
        ensures err { OnErr result (IsEmpty self.new) }
    {
        let Err(refused) = self.try_retain(alloc, operand) else {
            return Ok(());
        };
        *self = Gathered::new(alloc);
        Err(refused)
    }

    /// Keeps only the members of the operand.
    fn try_retain(&mut self, alloc: Global, operand: Operand<'_>) -> Result<(), NoMemory>
        ensures { OnOk result (HasMembers self.new (λ m. gathered_in self.old m && operand_in operand.entry m)) }
    {
        match operand {
            Operand::Gathered(other) => {
                let (code_points, strings) = other.into_parts();
                self.strings.keep_only(strings);
                self.code_points.retain(code_points)
            }
            Operand::Set(set) => {
                self.strings.keep_listed(set);
                self.code_points.retain_set(set.code_points())
            }
            Operand::CodePoints(source) => {
                self.strings = Strings::new(alloc);
                self.code_points.retain_set(source.list())
            }
            Operand::Complement(source) => {
                self.strings = Strings::new(alloc);
                self.code_points.remove_set(source.list())
            }
        }
    }

    /// Exchanges the members and the other code points, and forgets the strings.
    pub fn negate(&mut self, alloc: Global)
        ensures { (m : Member) → gathered_in self.new m ≡ negation m (gathered_in self.old m) }
    {
        self.code_points.complement();
        self.strings = Strings::new(alloc);
    }

    /// The set of what was gathered. `NoMemory` says that a request for memory was refused.
    pub fn into_set(self, alloc: Global) -> Result<CodePointInversionListAndStringList, NoMemory>
        ensures { IfOk result (λ set. (m : Member) → in_set set m ≡ gathered_in self m) }
    {
        let Self {
            code_points,
            strings,
        } = self;
        strings.into_set(alloc, code_points.into_set()?)
    }
}
