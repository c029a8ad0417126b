// The key table: pairs in the first places of a lent slice.
ghost use Rattle.std.specs.Prelude.{◌≡◌, ◌≤◌, false, [], length};
ghost use Rattle.keylines.specs.Laws.{PutLaw, EraseLaw, Largest};
ghost use Rattle.keylines.specs.Limits.{places_max};
ghost use Rattle.keylines.specs.Pairs.{room_for, put_pairs, erased_pairs, words_of, largest_of};
ghost use Rattle.keylines.specs.Sheets.{fits_line, line_pairs};

use crate::places::{find_words, largest_key, place};
use keylines::{ChannelLine, Key, OrderedKey, Pair};

// The most places of a slice that a key table uses.
const PLACES_MAX: usize = 1024;

// A table of pairs with distinct keys, in the first `used` places of a lent slice.
// Its memory is its caller's, so it is a slice with a length beside it and no vector.
#[derive(Drop)]
pub struct KeyTable<'a, K> {
    pairs: &'a mut [Pair<K>],
    used: usize,
    ghost within: { used ≤ length pairs.now },
    ghost most: { used ≤ places_max },
}

impl<'a, K: Key> KeyTable<'a, K> {
    ghost use Rattle.keys.specs.Views.{SameSlice, table_capacity, table_pairs};

    // A table with no pairs over this slice.
    pub fn new(pairs: &'a mut [Pair<K>]) -> KeyTable<'a, K>
        ensures value { table_pairs result ≡ [] }
        ensures same { result.pairs.now ≡ pairs.old }
        ensures named { result.pairs.ghost_name ≡ pairs.entry.ghost_name }
    {
        KeyTable { pairs, used: 0 }
    }

    // Takes all pairs away. The slice holds what it held.
    pub fn clear(&mut self)
        ensures after { table_pairs self.new ≡ [] }
        ensures same { self.new.pairs.now ≡ self.old.pairs.now }
        ensures named { self.new.pairs.ghost_name ≡ self.old.pairs.ghost_name }
    {
        self.used = 0;
    }

    // The pairs in the used places.
    fn used_pairs(&self) -> &[Pair<K>]
        ensures { result.now ≡ table_pairs self.now }
    {
        &self.pairs[..self.used]
    }

    // How many pairs it holds.
    pub fn len(&self) -> usize
        ensures { result ≡ length (table_pairs self.now) }
    {
        self.used
    }

    // How many pairs it can hold: the length of the slice, and at most 1,024.
    pub fn capacity(&self) -> usize
        ensures { result ≡ table_capacity self.now }
    {
        self.pairs.len().min(PLACES_MAX)
    }

    // The words of a key, if it is held.
    pub fn find(&self, key: K) -> Option<[u64; 2]>
        ensures { result ≡ words_of K.alike key (table_pairs self.now) }
    {
        find_words(self.used_pairs(), &key)
    }

    // Whether a line is fit: an erase always, a put where its key is held or a place is free.
    pub fn fits(&self, line: ChannelLine<K>) -> bool
        ensures { result ≡ fits_line K.alike (table_capacity self.now) (table_pairs self.now) line }
    {
        match line {
            ChannelLine::Put(key, _) => {
                place(self.used_pairs(), &key).is_some() || self.used < self.capacity()
            }
            ChannelLine::Erase(_) => true,
        }
    }

    // Stores the words under the key. Whether they fit: where the key is not held and no place is free, nothing changes.
    pub fn put(&mut self, key: K, words: [u64; 2]) -> bool
        ensures value { result ≡ room_for K.alike (table_capacity self.old) key (table_pairs self.old) }
        ensures after { table_pairs self.new ≡ put_pairs K.alike (table_capacity self.old) key words (table_pairs self.old) }
        ensures law { PutLaw K.alike key words result (table_pairs self.old) (table_pairs self.new) }
        ensures refused { result ≡ false → self.new.pairs.now ≡ self.old.pairs.now }
        ensures slice { SameSlice self.old self.new }
    {
        let pair = Pair { key, words };
        if let Some(i) = place(self.used_pairs(), &key) {
            self.pairs[i] = pair;
            return true;
        }
        if self.used >= self.capacity() {
            return false;
        }
        self.pairs[self.used] = pair;
        self.used += 1;
        true
    }

    // Removes the pair with this key, if there is one; the last pair takes its place.
    pub fn erase(&mut self, key: K)
        ensures after { table_pairs self.new ≡ erased_pairs K.alike key (table_pairs self.old) }
        ensures law { EraseLaw K.alike key (table_pairs self.old) (table_pairs self.new) }
        ensures slice { SameSlice self.old self.new }
    {
        if let Some(i) = place(self.used_pairs(), &key) {
            self.used -= 1;
            self.pairs[i] = self.pairs[self.used];
        }
    }

    // Puts or erases as the line says. Whether the line is fit: where it is not, nothing changes.
    pub fn apply(&mut self, line: ChannelLine<K>) -> bool
        ensures value { result ≡ fits_line K.alike (table_capacity self.old) (table_pairs self.old) line }
        ensures after { table_pairs self.new ≡ line_pairs K.alike (table_capacity self.old) (table_pairs self.old) line }
        ensures slice { SameSlice self.old self.new }
    {
        match line {
            ChannelLine::Put(key, words) => self.put(key, words),
            ChannelLine::Erase(key) => {
                self.erase(key);
                true
            }
        }
    }
}

impl<'a, K: OrderedKey> KeyTable<'a, K> {
    ghost use Rattle.keys.specs.Views.{table_pairs};

    // The largest key, if the table holds a pair.
    pub fn largest(&self) -> Option<K>
        ensures value { result ≡ largest_of K.above (table_pairs self.now) }
        ensures law { Largest K.above (table_pairs self.now) result }
    {
        largest_key(self.used_pairs())
    }
}
