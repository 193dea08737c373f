//! Sets of general categories.
ghost use Rattle.std.specs.Prelude.{◌≡◌, ℕ, IfOk};
ghost use Rattle.cp_invlist.specs.InversionList.{contains};
ghost use Rattle.cp_trie.specs.Map.{value_at};
ghost use Rattle.prop_values.specs.Category.{category_of};
ghost use Rattle.uset_resolve.specs.Resolution.{is_in, group_bits, in_group};

use cp_invlist::{CodePointInversionList, NoMemory};
use cp_trie::{CodePointTrie, TrieValue, ValueTest};
use prop_values::{GeneralCategory, GeneralCategoryGroup};
use std::alloc::Global;

/// The group that the number stands for.
fn group_of(number: u16) -> GeneralCategoryGroup
    ensures { result ≡ group_bits number }
{
    match GeneralCategoryGroup::try_from_u32(u32::from(number)) {
        Ok(group) => group,
        Err(_) => unreachable!(),
    }
}

/// Passed by the numbers of the categories in a group.
#[derive(Clone, Copy)]
struct IsInGroup {
    group: GeneralCategoryGroup,
}

impl ValueTest<u32> for IsInGroup {
    ghost passes = { λ test number. is_in test.group (category_of number) };

    fn passes(&mut self, number: u32) -> bool {
        match GeneralCategory::try_from_u32(number) {
            Ok(category) => self.group.contains(category),
            Err(_) => false,
        }
    }
}

/// The code points whose general category is in the group with this number, gathered in one pass over the runs.
pub(crate) fn set_of_group(
    alloc: Global,
    categories: &CodePointTrie<u32>,
    number: u16,
) -> Result<CodePointInversionList, NoMemory>
    ensures { IfOk result (λ set. (c : ℕ) → contains set c ≡ in_group (value_at categories.now) number c) }
{
    let group = group_of(number);
    categories.get_set_where(alloc, &mut IsInGroup { group })
}
