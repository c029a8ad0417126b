// What a channel book holds: pairs of a key and its words, and the lines that change them.

// A key with the two 64-bit words that are stored under it.
#[derive(Clone, Copy)]
pub struct Pair<K> {
    pub key: K,
    pub words: [u64; 2],
}

// A line (log entry) of a channel book: store two 64-bit words under a key, or remove the key.
#[derive(Clone, Copy)]
pub enum ChannelLine<K> {
    Put(K, [u64; 2]),
    Erase(K),
}
