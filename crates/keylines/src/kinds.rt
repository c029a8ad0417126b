// What a type must answer to be a key: sameness, and above it a total order.
ghost use Rattle.std.specs.Prelude.{◌≡◌, Bool, true, false};

// A kind of key: two keys can be told apart.
pub trait Key: Copy {
    ghost alike: { Self → Self → Bool };

    // Whether the two keys are equal.
    fn same(&self, other: &Self) -> bool
        ensures { result ≡ alike self.now other.now };

    ghost exact: { (x y : Self) → alike x y ≡ true → x ≡ y };

    ghost itself: { (x : Self) → alike x x ≡ true };
}

// A kind of key with a total order.
pub trait OrderedKey: Key {
    ghost above: { Self → Self → Bool };

    // Whether this key is above the other one.
    fn exceeds(&self, other: &Self) -> bool
        ensures { result ≡ above self.now other.now };

    ghost total: { (x y : Self) → above x y ≡ false → above y x ≡ false → x ≡ y };

    ghost transitive: { (x y z : Self) → above x y ≡ true → above y z ≡ true → above x z ≡ true };

    ghost strict: { (x : Self) → above x x ≡ false };
}
