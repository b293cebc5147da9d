//! The slot window: an element for each of the eight slots after the settled ones, over eight handed places.

ghost use Rattle.std.specs.Prelude.{◌≡◌, length};
ghost use Rattle.journal.specs.Windows.{span, element_at, put_at};

use journal::place_of;

/// A window over eight places, in which slot n has place n mod 8. The rule is the same for every kind of element.
// A slice, not `&mut [T; 8]`: to index such an array at a type parameter each method would have to ask how large a `T`
// is in memory.
#[derive(Drop)]
pub struct Window<'a, T> {
    pub places: &'a mut [T],
    ghost eight: { length places.now ≡ span },
}

impl<T: Copy> Window<'_, T> {
    /// The element of a slot.
    pub fn get(&self, slot: u32) -> T
        ensures { result ≡ element_at result self.now.places.now slot }
    {
        let places: &[T] = self.places;
        places[place_of(slot)]
    }

    /// Another element for a slot. A slot that is settled is forgotten by putting the blank one.
    pub fn put(&mut self, slot: u32, element: T)
        ensures places { self.new.places.now
            ≡ put_at self.old.places.now slot element }
        ensures lender { self.new.places.ghost_name ≡ self.old.places.ghost_name }
    {
        self.places[place_of(slot)] = element;
    }
}

#[cfg(test)]
mod tests {
    use crate::{Window, place_of};

    #[test]
    fn a_slot_has_place_n_mod_8(rt: HostRuntime) {
        assert_eq!(rt; place_of(1), 1);
        assert_eq!(rt; place_of(8), 0);
        assert_eq!(rt; place_of(21), 5);
    }

    #[test]
    fn what_is_put_for_a_slot_stands_there(rt: HostRuntime) {
        let mut places = [0u8; 8];
        let mut window = Window {
            places: &mut places,
        };
        window.put(10, 7);
        window.put(11, 9);
        assert_eq!(rt; window.get(10), 7);
        assert_eq!(rt; window.get(11), 9);
        assert_eq!(rt; window.get(12), 0);
        assert_eq!(rt; places, [0, 0, 7, 9, 0, 0, 0, 0]);
    }
}
