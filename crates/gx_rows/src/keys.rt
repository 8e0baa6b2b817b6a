//! The one row of a key.
//!
//! For every table whose keys rise strictly: the row that is found has the key and no other row
//! has it, and none is found exactly where no row has the key.
ghost use Rattle.std.specs.Prelude.{◌≡◌, ◌≢◌, ◌==◌, IsTrue, All, MatchOption, find, slice_get};
ghost use Rattle.std.specs.Option.{option_and_then};
ghost use Rattle.gx_rows.specs.Keys.{is_rising, IsOnly};

/// A row that is found by a number of its own.
pub trait Keyed {
    ghost use Rattle.std.specs.Prelude.{ℕ};

    ghost key_of: { Self → ℕ };

    /// The number by which the row is found.
    fn key(&self) -> u32
        ensures { result ≡ key_of self.now };
}

/// The place of the row that has a key.
pub fn find_row<T: Keyed, const N: usize>(rows: &[T; N], key: u32) -> Option<usize>
    requires { IsTrue (is_rising T.key_of rows.now) }
    ensures one { MatchOption result (All (λ row. T.key_of row ≢ key) rows.now) (IsOnly T.key_of rows.now key) }
    ensures row { option_and_then (slice_get rows.now) result ≡ find (λ row. T.key_of row == key) rows.now }
{
    rows.binary_search_by_key(&key, |row| row.key()).ok()
}
