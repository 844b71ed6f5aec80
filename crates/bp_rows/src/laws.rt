//! The laws of runs. The function does nothing: its contract is the law.
ghost use Rattle.std.specs.Prelude.{◌≡◌, ◌<◌, ℕ, Bool, false, List, length, sum};
ghost use Rattle.bp_rows.specs.Image.{Image, IsPage, row_of, with_row};
ghost use Rattle.bp_rows.specs.Runs.{IsRuns, painted_runs};

/// A row has one list of runs, which sums up to its width; and a page in which a row is set to its
/// own runs is the same page.
pub fn runs_law()
    ensures one { (row : List Bool) (runs others : List ℕ) →
        IsRuns runs row → IsRuns others row → runs ≡ others }
    ensures total { (row : List Bool) (runs : List ℕ) → IsRuns runs row → sum runs ≡ length row }
    ensures same { (p : Image) (row : ℕ) (runs : List ℕ) →
        IsPage p → row < p.height → IsRuns runs (row_of p row) →
        with_row p row (painted_runs false runs) ≡ p }
{}
