// Laws of the definitions, each the contract of a function.
ghost use Rattle.std.specs.Prelude.{◌≡◌, ◌↔◌, ℕ, List, Result};
ghost use Rattle.bp_core.specs.declared.rules.Rule.{Rule};
ghost use Rattle.bp_rows.specs.Image.{Image, IsPage};
ghost use Rattle.bp_tiff.specs.declared.form.Form.{Form};
ghost use Rattle.bp_tiff.specs.Read.{TiffReads, TiffAnswers};
ghost use Rattle.bp_tiff.specs.Tiff.{tiff_of};

use bp_t6::laws::{reading_law, some_answer, strip_law, strip_size};

/// No two pages share a file, and no page has one file in both forms.
pub fn one_page_a_file()
    ensures page { (first second : Form) (p q : Image)
        → IsPage p
        → IsPage q
        → tiff_of first p ≡ tiff_of second q
        → p ≡ q }
    ensures form { (first second : Form) (p q : Image)
        → tiff_of first p ≡ tiff_of second q
        → first ≡ second }
{
    strip_law();
    strip_size();
}

/// Each file has one answer: one page, or else one rule that it breaks first.
pub fn one_answer()
    ensures some { (bytes : List ℕ) → (answer : Result Image Rule) × TiffAnswers bytes answer }
    ensures only { (bytes : List ℕ) (first second : Result Image Rule)
        → TiffAnswers bytes first
        → TiffAnswers bytes second
        → first ≡ second }
{
    reading_law();
    some_answer();
}

/// What is written of a page, in either form, is read as that page and as no other.
pub fn written_is_read()
    ensures { (form : Form) (p q : Image)
        → IsPage p
        → TiffReads (tiff_of form p) q ↔ (q ≡ p) }
{
    strip_law();
    strip_size();
}
