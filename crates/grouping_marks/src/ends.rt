// Each group's first item and its last, from each item's group: for where the marks are gone.
ghost use Rattle.std.specs.Prelude.{◌≡◌, ℕ, ◌+◌, ◌-◌, ◌≤◌, ◌<◌, cond, eqb, List, length, get_or};
ghost use Rattle.lent.specs.Over.{over};
ghost use Rattle.lent.specs.passes.Bounds.{AllBelow};
ghost use Rattle.grouping_marks.specs.Marks.{group_numbers, first_items, last_items};
ghost use Rattle.grouping_marks.specs.passes.Numbered.{NumberedBy, Numbered};

use lent::fill;

// Each group's last item, over the front of `lasts`. Every item is stored at its group's place, and the last one stays.
fn last_items(numbers: &[u16], lasts: &mut [u16])
    requires few { length numbers.now ≤ 65536 }
    requires inside { AllBelow numbers.now (length lasts.old) }
    ensures { (marks : List ℕ) → numbers.now ≡ group_numbers marks → lasts.new ≡ over (last_items marks) lasts.old }
{
    for (i, number) in numbers.iter().enumerate() {
        lasts[usize::from(*number)] = i as u16;
    }
}

// A group's first item, which is behind the last of the group before it.
fn first_item(lasts: &[u16], group: usize) -> u16
    requires inside { group < length lasts.now }
    requires items { AllBelow lasts.now 65535 }
    ensures { result ≡ cond (eqb group 0) 0 (get_or lasts.now (group - 1) 0 + 1) }
{
    if group == 0 {
        return 0;
    }
    lasts[group - 1] + 1
}

// Each group's first item, over the front of `firsts`, by the groups' last items.
fn first_items(lasts: &[u16], firsts: &mut [u16])
    requires items { AllBelow lasts.now 65535 }
    requires room { length lasts.now ≤ length firsts.old }
    ensures { (marks : List ℕ) → lasts.now ≡ last_items marks → firsts.new ≡ over (first_items marks) firsts.old }
{
    fill::by_place(lasts.len(), firsts, |group| first_item(lasts, group));
}

// The last items, and by them the first, where `lasts` has a place for each group and no more. Which marks made the
// groups is not asked: it holds of any that did.
pub fn group_ends(numbers: &[u16], lasts: &mut [u16], firsts: &mut [u16])
    requires few { length numbers.now ≤ 65535 }
    requires numbered { Numbered numbers.now (length lasts.old) }
    requires room { length lasts.old ≤ length firsts.old }
    ensures lasts { (marks : List ℕ) → NumberedBy marks numbers.now (length lasts.old)
        → lasts.new ≡ last_items marks }
    ensures firsts { (marks : List ℕ) → NumberedBy marks numbers.now (length lasts.old)
        → firsts.new ≡ over (first_items marks) firsts.old }
{
    last_items(numbers, lasts);
    first_items(lasts, firsts);
}
