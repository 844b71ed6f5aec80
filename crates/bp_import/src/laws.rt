// The law of what a folder comes to. The function does nothing: its contract is the law.
ghost use Rattle.std.specs.Prelude.{◌≡◌, ℕ, List, Result};
ghost use Rattle.bp_core.specs.declared.rules.Rule.{Rule};
ghost use Rattle.bp_matter.specs.Batches.{BatchShown};
ghost use Rattle.bp_outside.specs.Source.{FileMap};
ghost use Rattle.bp_import.specs.Batch.{BatchAnswers};

use bp_tiff::one_answer;

/// Each folder comes to one batch, or else to one rule as the first that is broken.
pub fn one_batch()
    ensures some { (files : FileMap) (name : List ℕ)
        → (answer : Result BatchShown Rule) × BatchAnswers files name answer }
    ensures only { (files : FileMap) (name : List ℕ) (first second : Result BatchShown Rule)
        → BatchAnswers files name first
        → BatchAnswers files name second
        → first ≡ second }
{
    one_answer();
}
