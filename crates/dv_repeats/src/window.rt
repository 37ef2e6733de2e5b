//! Keys in order, among which others are looked up.

ghost use Rattle.std.specs.Prelude.{◌≡◌, ◌<◌, ◌+◌, ◌≤◌, ◌||◌, true, false, List, ℕ, [], length};
ghost use Rattle.dv_schema.specs.Octets.{is_one_of, same_octets};
ghost use Rattle.dv_repeats.specs.Windows.{IsAscending, keys_of};

use arrayvec::ArrayVec;

/// How many keys a window has room for.
pub(crate) const ROOM: usize = 1024;

/// Some keys, in ascending order.
#[derive(Drop)]
pub(crate) struct Window<'a> {
    keys: ArrayVec<&'a [u8], ROOM>,
    ghost ascending: { IsAscending keys.items },
}

impl<'a> Window<'a> {
    /// No keys.
    pub(crate) fn new() -> Window<'a>
        ensures { result.keys.items ≡ [] }
    {
        Window {
            keys: ArrayVec::new(),
        }
    }

    /// How many they are.
    pub(crate) fn len(&self) -> usize
        ensures { result ≡ length self.now.keys.items }
    {
        self.keys.len()
    }

    /// Whether there is no room for one more.
    pub(crate) fn is_full(&self) -> bool
        ensures free { result ≡ false → length self.now.keys.items < 1024 }
        ensures full { result ≡ true → 1024 ≤ length self.now.keys.items }
    {
        self.keys.is_full()
    }

    /// Whether the key is one of them.
    pub(crate) fn has(&self, key: &[u8]) -> bool
        ensures { result ≡ is_one_of (keys_of self.now.keys.items) key.now }
    {
        self.keys.as_slice().binary_search(&key).is_ok()
    }

    /// Puts one more key among them.
    pub(crate) fn add(&mut self, key: &'a [u8])
        requires { length self.old.keys.items < 1024 }
        ensures keys { (x : List ℕ) → is_one_of (keys_of self.new.keys.items) x
            ≡ (same_octets x key.now || is_one_of (keys_of self.old.keys.items) x) }
        ensures len { length self.new.keys.items ≡ length self.old.keys.items + 1 }
    {
        let place = match self.keys.as_slice().binary_search(&key) {
            Ok(place) => place,
            Err(place) => place,
        };
        self.keys.insert(place, key);
    }
}
