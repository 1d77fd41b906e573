ghost use Rattle.std.specs.Prelude.{◌≡◌, ◌<◌, ℕ, List, IsTrue, length, map};
ghost use Rattle.std.specs.List.{range_with_len};
ghost use Rattle.csv_rows.specs.Tables.{KeyRule, shown, is_table};

use crate::table::Rule;

/// The keys that the rows of a file may begin with. Each has a line of the table, and a place of its own.
pub trait Keys: Copy + 'static {
    /// The table of the keys.
    ghost rules: { List KeyRule };

    /// The place of a key in the table.
    ghost place: { Self → ℕ };

    /// Returns the table of the keys: each key has its line at its place.
    fn rules() -> &'static [Rule<Self>]
        ensures table { map shown result.now ≡ rules }
        ensures each { map (λ rule. place rule.key) result.now ≡ range_with_len 0 (length result.now) };

    /// Returns the place of a key in the table.
    fn place(self) -> usize
        ensures { result ≡ place self };

    /// The table is one that rows can be judged by.
    ghost sound: { IsTrue (is_table rules) };

    /// The place of each key is a place of the table.
    ghost within: { (key : Self) → place key < length rules };

    /// No two keys have one place.
    ghost apart: { (key other : Self) → place key ≡ place other → key ≡ other };
}
