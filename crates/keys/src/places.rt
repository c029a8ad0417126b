// Pairs in a bare slice: the place and the words of a key, and the largest key. A key table's methods hand their slice on to these, as
// those of every table do whose memory is lent.
ghost use Rattle.std.specs.Prelude.{◌≡◌};
ghost use Rattle.std.specs.List.{position};
ghost use Rattle.keylines.specs.Laws.{Largest};
ghost use Rattle.keylines.specs.Pairs.{words_of, largest_of, larger_of};

use keylines::{Key, OrderedKey, Pair};

// The place of the first pair with this key.
pub(crate) fn place<K: Key>(pairs: &[Pair<K>], key: &K) -> Option<usize>
    ensures { result ≡ position (λ p. K.alike p.key key.now) pairs.now }
{
    pairs.iter().position(|p| p.key.same(key))
}

// The words of a key, if one of the pairs has it.
pub(crate) fn find_words<K: Key>(pairs: &[Pair<K>], key: &K) -> Option<[u64; 2]>
    ensures { result ≡ words_of K.alike key.now pairs.now }
{
    let pair = pairs.iter().find(|p| p.key.same(key))?;
    Some(pair.words)
}

// The largest key among the pairs, if there is one.
pub(crate) fn largest_key<K: OrderedKey>(pairs: &[Pair<K>]) -> Option<K>
    ensures value { result ≡ largest_of K.above pairs.now }
    ensures law { Largest K.above pairs.now result }
{
    let mut best = None;
    for pair in pairs {
        best = larger(best, pair.key);
    }
    best
}

// The larger of the largest key so far and one more key.
fn larger<K: OrderedKey>(best: Option<K>, key: K) -> Option<K>
    ensures { result ≡ larger_of K.above best key }
{
    match best {
        Some(b) if !key.exceeds(&b) => Some(b),
        _ => Some(key),
    }
}
