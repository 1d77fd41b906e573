use crate::keys::Keys;
use std::marker::Model;

/// What a row says: its key and its number.
// proof: in contracts an item has the place of its key, so that no definition depends on the type of keys.
#[derive(Debug, Drop)]
pub struct Item<K: Keys> {
    /// The key.
    pub key: K,
    /// The number after the key, 0 if the key has only a text.
    pub number: u64,
}

impl<K: Keys> Model for Item<K> {
    ghost use Rattle.csv_rows.specs.Said.{Item};

    ghost Value = { Item };

    ghost view = { λ item. record { key = K.place item.key; number = item.number } };
}
