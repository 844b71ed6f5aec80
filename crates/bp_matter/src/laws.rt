//! The laws of kept rows. The functions do nothing: the contract of each is the law.
ghost use Rattle.std.specs.Prelude.{◌≡◌, ◌<◌, ◌^◌, IsTrue, List, ℕ, slice_index};
ghost use Rattle.bp_core.specs.Sorted.{ascends, row_key};
ghost use Rattle.bp_core.specs.declared.kept.Row.{Row};
ghost use Rattle.bp_matter.specs.Forms.{FormsOf};
ghost use Rattle.bp_matter.specs.KeptRows.{rows_of};
ghost use Rattle.bp_matter.specs.Matter.{Matter};
ghost use Rattle.bp_matter.specs.ReadTables.{FindsLeastBad};
ghost use Rattle.bp_matter.specs.Valid.{IsValid};

use bp_t6::laws::strip_law;

/// Valid matters with equal kept rows are equal.
pub fn rows_law()
    ensures { (m n : Matter) → IsValid m → IsValid n → rows_of m ≡ rows_of n → m ≡ n }
{
    strip_law();
}

/// The kept rows of a valid matter stand in ascending order of key, none twice.
pub fn order_law()
    ensures { (m : Matter) → IsValid m → IsTrue (ascends row_key 0 (rows_of m)) }
{}

/// What it means that the body of a kept row is of its form: of each kind, that it is the body of some row.
pub fn form_law()
    ensures { (row : Row) →
        ((i : ℕ) → slice_index row.body i < 256) →
        row.k1 < 2 ^ 32 →
        row.k2 < 2 ^ 32 →
        FormsOf row }
{
    strip_law();
}

/// The key that `read_tables` names is the least of those whose bodies aren't of their form; where it
/// names none each body is of its form.
pub fn least_bad_law()
    ensures { (rows : List Row) → FindsLeastBad rows }
{}
