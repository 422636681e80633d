ghost use Rattle.std.specs.Prelude.{◌≡◌, ◌↔◌, IsTrue};

use sqlite_items::Items;

/// Equality of trees, field for field and item for item, in time linear in the smaller one.
pub trait Same {
    /// Whether both are one value.
    fn same(&self, other: &Self) -> bool
        ensures { IsTrue result ↔ (self.now ≡ other.now) };
}

impl<T: Same> Same for Items<T> {
    fn same(&self, other: &Items<T>) -> bool {
        let items = self.as_slice();
        let others = other.as_slice();
        if items.len() != others.len() {
            return false;
        }
        for i in 0..items.len() {
            if !items[i].same(&others[i]) {
                return false;
            }
        }
        true
    }
}
