//! A map with its newest changes beside it.

ghost use Rattle.std.specs.Prelude.{◌≡◌, ◌<◌, ◌≤◌, ◌+◌, ◌^◌, true, [], length, map, OnOk, OnErr, IfOk, option_map};
ghost use Rattle.std.specs.Option.{option_copied};
ghost use Rattle.pages.specs.Differences.{with_differences};
ghost use Rattle.pages.specs.Reach.{key_of, value_of, entry_of, AreInOrder};
ghost use Rattle.pages.specs.Shapes.{IsPage};
ghost use Rattle.value.specs.Ordered.{at, put};
ghost use Rattle.value.specs.ValueOrder.{value_cmp};

use crate::copies::copy_page;
use crate::pages::{Pages, TOO_MANY};
use crate::parts::put_page;
use crate::search::find;
use crate::values::Values;
use std::alloc::{AllocError, Global};
use std::fmt;
use std::marker::Model;
use value::{Copied, Value};

/// The most differences beside a map. Each version copies them, and so many share the paths that they change.
const MOST_BESIDE: usize = 8;

/// An ordered map in which the newest changes stand as differences beside the pages, for as long as these are shared
/// (Severance and Lohman, "Differential Files: Their Application to the Maintenance of Large Databases", 1976). So a
/// version that differs by little copies no page, and pages are changed where they stand once nobody else has them.
#[derive(Drop)]
pub struct DifferentialMap<V> {
    main: Pages<V>,
    differences: Vec<(Value, Option<V>)>,
}

impl<V> Model for DifferentialMap<V> {
    ghost use Rattle.std.specs.Prelude.{List};
    ghost use Rattle.value.specs.declared.values.Value.{Value as values};

    ghost Value = { List (values × V) };

    ghost use Rattle.pages.specs.Differences.{with_differences, AreApart};

    ghost view = { λ map. with_differences map.differences.items map.main };

    ghost invariant = { λ map. AreApart map.differences.items map.main };
}

/// The number of entries of the main map and of the differences, and neither of them.
impl<V> fmt::Debug for DifferentialMap<V> {
    fn fmt<W: fmt::Write>(&self, f: &mut fmt::Formatter<W>) -> fmt::Result {
        let (entries, differences) = (self.main.len(), self.differences.len());
        write!(f, "DifferentialMap({entries}, {differences})")
    }
}

impl<V> DifferentialMap<V> {
    /// The map without entries. It takes no memory.
    pub fn new(alloc: Global) -> DifferentialMap<V>
        ensures { result ≡ [] }
    {
        DifferentialMap {
            main: Pages::new(alloc),
            differences: Vec::new(alloc),
        }
    }

    /// The allocator that the map is made with.
    pub fn allocator(&self) -> Global {
        self.main.allocator()
    }

    /// The keys ascend, and there are fewer entries than 2^63: what holds of every map, brought to where it is needed.
    pub fn recall_order(&self)
        ensures order { AreInOrder self.now }
        ensures short { length self.now < 2 ^ 63 }
    {
        // (what holds of every value of a type is known where a field of it is read)
        let _ = &self.differences;
    }

    /// How many entries there are; with differences beside the main map they are counted one by one. It takes no
    /// memory.
    pub fn len(&self) -> usize
        ensures count { result ≡ length self.now }
        ensures short { length self.now < 2 ^ 63 }
    {
        if self.differences.is_empty() {
            return self.main.len();
        }
        let mut count = 0;
        for _ in self.values() {
            count += 1;
        }
        count
    }

    /// What stands at a key. It takes no memory.
    pub fn get(&self, key: &Value) -> Option<&V>
        ensures value { option_copied result ≡ option_map value_of (at value_cmp key_of key.now self.now) }
        ensures order { AreInOrder self.now }
    {
        match find(&self.differences, key) {
            Some(difference) => difference.1.as_ref(),
            None => self.main.get(key),
        }
    }

    /// The values in the order of their keys, one after the other. It takes no memory.
    pub fn values(&self) -> Values<'_, V>
        ensures rest { result ≡ map value_of self.now }
        ensures short { length self.now < 2 ^ 63 }
    {
        Values::new(&self.main, &self.differences)
    }
}

impl<V: Copied> DifferentialMap<V> {
    /// Changes the map: at the key stands this value from now on, or none. Copies see nothing of it. Where memory runs
    /// out, the map is as it was.
    pub fn put(&mut self, key: &Value, value: Option<V>) -> Result<(), AllocError>
        ensures changed { OnOk result (self.new ≡ put value_cmp key_of key.now (entry_of key.now value) self.old) }
        ensures same { OnErr result (self.new ≡ self.old) }
        ensures order { AreInOrder self.new }
        ensures short { length self.new < 2 ^ 63 }
    {
        if takes_difference(&self.main, &self.differences) {
            put_page(&mut self.differences, key, Some(value))?;
            return Ok(());
        }
        merge(&mut self.main, &mut self.differences)?;
        self.main.put(key, value)
    }

    /// Puts the differences into the main map, if nobody shares that: it is changed where it stands. The map is the
    /// same as before, also where a difference finds no memory and stays beside.
    pub fn settle(&mut self)
        ensures { self.new ≡ self.old }
    {
        if self.differences.is_empty() || self.main.is_shared() {
            return;
        }
        let _ = merge(&mut self.main, &mut self.differences);
    }

    /// The same entries without differences beside them.
    pub fn merged(&self) -> Result<Pages<V>, AllocError>
        ensures { IfOk result (λ pages. pages ≡ self.now) }
    {
        let mut main = self.main.copy()?;
        let mut differences = copy_page(self.main.allocator(), &self.differences)?;
        merge(&mut main, &mut differences)?;
        Ok(main)
    }

    /// A map equal to this one, which shares the main map. It takes no memory where there are no differences.
    pub fn copy(&self) -> Result<DifferentialMap<V>, AllocError>
        ensures { IfOk result (λ copy. copy ≡ self.now) }
    {
        let alloc = self.main.allocator();
        let differences = if self.differences.is_empty() {
            Vec::new(alloc)
        } else {
            copy_page(alloc, &self.differences)?
        };
        Ok(DifferentialMap {
            main: self.main.copy()?,
            differences,
        })
    }
}

/// Whether a change is to stand beside the main map: others share that, and there is room.
fn takes_difference<V>(main: &Pages<V>, differences: &[(Value, Option<V>)]) -> bool
    ensures room { result ≡ true → length differences.now < 8 }
    ensures short { result ≡ true → length main.now < 2 ^ 62 }
{
    main.is_shared() && differences.len() < MOST_BESIDE && main.len() < TOO_MANY
}

/// Puts differences into a map, the last one first. Those that find no memory stay.
fn merge<V: Copied>(
    main: &mut Pages<V>,
    differences: &mut Vec<(Value, Option<V>)>,
) -> Result<(), AllocError>
    requires page { IsPage differences.old.items }
    requires order { AreInOrder main.old }
    ensures same { with_differences differences.new.items main.new
        ≡ with_differences differences.old.items main.old }
    ensures page { IsPage differences.new.items }
    ensures order { AreInOrder main.new }
    ensures short { length main.new + length differences.new.items
        ≤ length main.old + length differences.old.items }
    ensures none { OnOk result (differences.new.items ≡ []) }
{
    while let Some(last) = differences.last() {
        let value = Copied::copied(&last.1)?;
        main.put(&last.0, value)?;
        drop(differences.pop());
    }
    Ok(())
}
