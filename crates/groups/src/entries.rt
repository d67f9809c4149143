//! The total of each group.

ghost use Rattle.std.specs.Prelude.{◌≡◌, ◌==◌, [], None, Some, List, false, map, IfOk, if◌then◌else◌};
ghost use Rattle.std.specs.Option.{option_copied};
ghost use Rattle.std.specs.Ordering.{eq_by_cmp};
ghost use Rattle.value.specs.ValueOrder.{value_cmp};
ghost use Rattle.value.specs.declared.values.Value.{Value as values};
ghost use Rattle.table.specs.declared.aggregates.Aggregate.{Aggregate as functions};
ghost use Rattle.table.specs.Aggregates.{aggregate as aggregate_of};
ghost use Rattle.table.specs.Rows.{RowValues};
ghost use Rattle.table.specs.Kinds.{kind_of_aggregate};
ghost use Rattle.table.specs.Slots.{IsWithinKind, kind_of, value_of};
ghost use Rattle.groups.specs.Answers.{value_for};
ghost use Rattle.groups.specs.Steps.{put_entry, total_entry, figures_at, entries_more, entries_less, entries_moved};
ghost use Rattle.groups.specs.Totals.{Members, total_at, IsEntryOf, IsTotalOf, AreTotalsOf, AreWithin, IsWithin, IsChange};

use crate::members::Member;
use crate::totals::Total;
use pages::DifferentialMap;
use std::alloc::{AllocError, Global};
use std::cmp::Ordering;
use std::marker::Model;
use table::{Aggregate, SlotValue};
use value::{Value, order};

/// The total of each group that has a row, in the order of the groups.
#[derive(Debug, Drop)]
pub struct Totals {
    pages: DifferentialMap<Total>,
}

impl Model for Totals {
    ghost use Rattle.std.specs.Prelude.{map};
    ghost use Rattle.groups.specs.Totals.{Entries, entry_from};

    ghost Value = { Entries };

    ghost view = { λ t. map entry_from t.pages };
}

impl Totals {
    /// The totals of groups without rows. It takes no memory.
    pub fn new(alloc: Global) -> Totals
        ensures value { result ≡ [] }
        ensures totals { (asked : functions) → AreTotalsOf asked (λ group. []) result }
    {
        Totals {
            pages: DifferentialMap::new(alloc),
        }
    }

    /// The total of a group, if it has a row. It takes no memory.
    pub fn get(&self, group: &Value) -> Option<&Total>
        ensures value { option_copied result ≡ total_at group.now self.now }
        // It is that of the group's rows, and a group without rows has none.
        ensures entry { (asked : functions) (members : Members) → AreTotalsOf asked members self.now
            → IsEntryOf asked (members group.now) (option_copied result) }
    {
        self.pages.get(group)
    }

    /// What a set function gives of a group's rows, also where it has none, where the totals are what it asks for. MIN
    /// or MAX of texts copies one, and nothing else takes memory.
    pub fn answer(&self, group: &Value, aggregate: Aggregate) -> Result<SlotValue, AllocError>
        ensures kind { IfOk result (λ answer. kind_of answer ≡ kind_of_aggregate aggregate) }
        // It is what the set function gives of the group's rows from scratch.
        ensures answer { IfOk result (λ answer. (rows : values → List RowValues)
            → AreTotalsOf aggregate (λ v. map (value_for aggregate) (rows v)) self.now
            → value_of answer ≡ aggregate_of aggregate (rows group.now)) }
        ensures within { IfOk result (λ answer. (members : Members)
            → AreTotalsOf aggregate members self.now → IsWithin (members group.now) → IsWithinKind answer) }
    {
        match self.get(group) {
            Some(total) => total.answer(aggregate),
            None => Total::new(self.pages.allocator()).answer(aggregate),
        }
    }

    /// The totals after one row goes and then one comes, either of which may be none, for the set function that is
    /// asked for. Copies of these stay as they are; what no copy shares is changed where it stands.
    pub fn with(
        self,
        asked: Aggregate,
        add: &Option<Member>,
        remove: &Option<Member>,
    ) -> Result<Totals, AllocError>
        // Totals of some groups become those of the groups with that change.
        ensures { IfOk result (λ totals. (before after : Members) → IsChange add.now remove.now before after
            → AreTotalsOf asked before self → AreWithin after → AreTotalsOf asked after totals) }
    {
        match (remove, add) {
            (None, None) => Ok(self),
            (None, Some(new)) => self.more(asked, new),
            (Some(old), None) => self.less(asked, old),
            (Some(old), Some(new)) => self.after_replacement(asked, old, new),
        }
    }

    /// The totals after one row goes and one comes.
    fn after_replacement(
        self,
        asked: Aggregate,
        old: &Member,
        new: &Member,
    ) -> Result<Totals, AllocError>
        ensures { IfOk result (λ totals. (before after : Members)
            → IsChange (Some new.now) (Some old.now) before after
            → AreTotalsOf asked before self → AreWithin after → AreTotalsOf asked after totals) }
    {
        match order(&old.group, &new.group) {
            Ordering::Equal => self.after_new_value(asked, old, new),
            Ordering::Less | Ordering::Greater => self.less(asked, old)?.more(asked, new),
        }
    }

    /// The totals after a row of a group gets another value: its total is looked up and put once.
    fn after_new_value(
        self,
        asked: Aggregate,
        old: &Member,
        new: &Member,
    ) -> Result<Totals, AllocError>
        requires same { old.now.group ≡ new.now.group }
        ensures { IfOk result (λ totals. (before after : Members)
            → IsChange (Some new.now) (Some old.now) before after
            → AreTotalsOf asked before self → AreWithin after → AreTotalsOf asked after totals) }
    {
        match order(&old.value, &new.value) {
            Ordering::Equal => Ok(self),
            Ordering::Less | Ordering::Greater => self.after_move(
                asked, &old.group, &old.value, &new.value,
            ),
        }
    }

    /// The totals with another value for a row of a group.
    fn after_move(
        self,
        asked: Aggregate,
        group: &Value,
        old: &Value,
        new: &Value,
    ) -> Result<Totals, AllocError>
        ensures { IfOk result (λ totals. totals ≡ entries_moved asked group.now old.now new.now self) }
    {
        let without = self.total(group)?.less(asked, old)?;
        let total = without.more(asked, new)?;
        self.put(group, total)
    }

    /// The totals with one row more.
    fn more(self, asked: Aggregate, member: &Member) -> Result<Totals, AllocError>
        ensures { IfOk result (λ totals. totals ≡ entries_more asked member.now self) }
    {
        let total = self.total(&member.group)?.more(asked, &member.value)?;
        self.put(&member.group, total)
    }

    /// The totals with one row less.
    fn less(self, asked: Aggregate, member: &Member) -> Result<Totals, AllocError>
        ensures { IfOk result (λ totals. totals ≡ entries_less asked member.now self) }
    {
        let total = self.total(&member.group)?.less(asked, &member.value)?;
        self.put(&member.group, total)
    }

    /// The total of a group; that of no rows where none stands for it.
    fn total(&self, group: &Value) -> Result<Total, AllocError>
        ensures { IfOk result (λ total. total ≡ figures_at group.now self.now) }
    {
        match self.get(group) {
            Some(total) => total.copy(),
            None => Ok(Total::new(self.pages.allocator())),
        }
    }

    /// The totals with this one for a group in the place of its own, or none where it is of no rows.
    pub fn put(self, group: &Value, total: Total) -> Result<Totals, AllocError>
        ensures put { IfOk result (λ totals. totals ≡ put_entry group.now (total_entry group.now total) self) }
        // Totals of some groups become those of the groups in which this one has the rows of the total.
        ensures totals { IfOk result (λ totals. (asked : functions) (before after : Members)
            → IsTotalOf asked (after group.now) total
            → ((v : values) → eq_by_cmp value_cmp v group.now ≡ false → after v ≡ before v)
            → AreTotalsOf asked before self → AreTotalsOf asked after totals) }
    {
        let mut pages = self.pages;
        pages.put(group, unless_empty(total))?;
        Ok(Totals { pages })
    }

    /// Totals that were changed since they were last shared come into their place, if nobody shares the others: what
    /// the next version of these has to copy is less then. They stay as they are, also where memory runs out.
    pub fn settle(&mut self)
        ensures { self.new ≡ self.old }
    {
        self.pages.settle();
    }

    /// Totals equal to these, which share all with them.
    pub fn copy(&self) -> Result<Totals, AllocError>
        ensures { IfOk result (λ copy. copy ≡ self.now) }
    {
        Ok(Totals {
            pages: self.pages.copy()?,
        })
    }
}

/// The total of a group; nothing where that is of no rows.
fn unless_empty(total: Total) -> Option<Total>
    ensures { result ≡ (if total.rows == 0 then None else Some total) }
{
    if total.is_empty() {
        return None;
    }
    Some(total)
}
