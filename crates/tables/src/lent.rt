// Memory that is lent: a whole table, and a list in the first places of one.
ghost use Rattle.std.specs.Prelude.{◌≡◌, ◌+◌, ◌-◌, ◌<◌, [], ◌∷◌, ◌++◌, drop, length, nat_lt, Some};
ghost use Rattle.protocol.specs.Items.{item_at};
ghost use Rattle.protocol.specs.Store.{lost_at};
ghost use Rattle.tables.specs.Views.{free_of, list_of, places_of};

// A lent table, all of it used.
#[derive(Drop)]
pub struct Table<'a, T> {
    pub all: &'a mut [T],
}

// A list in a lent table: its first `len` places.
// Its memory is its caller's, so it is a slice with a length beside it and no vector.
#[derive(Drop)]
pub struct LentList<'a, T> {
    table: &'a mut [T],
    len: usize,
}

impl<'a, T: Copy> LentList<'a, T> {
    // An empty list in a table, which keeps what it holds.
    pub fn new(table: &'a mut [T]) -> LentList<'a, T>
        ensures value { list_of result ≡ [] }
        ensures places { places_of result ≡ length table.old }
        ensures same { result.table.now ≡ table.old }
    {
        LentList { table, len: 0 }
    }

    // How many items the list has.
    pub fn len(&self) -> usize
        ensures { result ≡ length (list_of self.now) }
    {
        self.len.min(self.table.len())
    }

    // How many items it has room for.
    pub fn places(&self) -> usize
        ensures { result ≡ places_of self.now }
    {
        self.table.len()
    }

    // Whether it has room for one more.
    pub fn has_room(&self) -> bool
        ensures { result ≡ nat_lt (length (list_of self.now)) (places_of self.now) }
    {
        self.len() < self.places()
    }

    // The item at an index, counted from 0.
    pub fn get(&self, i: usize) -> T
        requires { i < length (list_of self.now) }
        ensures { item_at (list_of self.now) i ≡ Some result }
    {
        self.table[i]
    }

    // One item more at the end.
    pub fn push(&mut self, item: T)
        requires { length (list_of self.old) < places_of self.old }
        ensures items { list_of self.new ≡ list_of self.old ++ item ∷ [] }
        ensures places { places_of self.new ≡ places_of self.old }
        ensures free { free_of self.new ≡ drop 1 (free_of self.old) }
    {
        self.table[self.len] = item;
        self.len += 1;
    }

    // The last item takes the index m, and there is one fewer.
    pub fn lose(&mut self, m: usize)
        requires { m < length (list_of self.old) }
        ensures items { list_of self.new ≡ lost_at (item_at (list_of self.old) (length (list_of self.old) - 1)) m (list_of self.old) }
        ensures places { places_of self.new ≡ places_of self.old }
        ensures free { drop 1 (free_of self.new) ≡ free_of self.old }
    {
        let last = self.len() - 1;
        self.table[m] = self.get(last);
        self.len = last;
    }
}
