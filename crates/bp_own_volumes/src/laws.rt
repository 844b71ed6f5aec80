//! The laws of the volumes that are pressed. The functions do nothing: the contract of each is its laws.
ghost use Rattle.std.specs.Prelude.{◌≡◌, All, IsTrue, Ok, Result, Some};
ghost use Rattle.bp_check.specs.Check.{check_of};
ghost use Rattle.bp_check.specs.Checking.{ChecksAs, StepGives};
ghost use Rattle.bp_check.specs.Images.{IsTiff, Judging};
ghost use Rattle.bp_check.specs.declared.checked.Checked.{Checked};
ghost use Rattle.bp_check.specs.declared.refusals.ImportRefusal.{ImportRefusal};
ghost use Rattle.bp_freeze.specs.Keeping.{KeepsProduction};
ghost use Rattle.bp_matter.specs.Matter.{Matter};
ghost use Rattle.bp_matter.specs.Valid.{IsValid};
ghost use Rattle.bp_matter.specs.declared.rows.Production.{Production};
ghost use Rattle.bp_outside.specs.Memory.{file_map, paths_differ};
ghost use Rattle.bp_own_volumes.specs.OwnVolumes.{AreShortFiles, own_counts, own_operands};
ghost use Rattle.bp_press.specs.Volume.{file_at, volume_of};

use bp_press::images_are_read;
use bp_tiff::one_answer;

/// The volume of a production that a valid matter keeps passes its check, if none of its files is
/// longer than a check reads: with as many documents as items, the images of all items, and as many
/// files as the manifest has lines. So a call that checks it meets no rule.
pub fn own_volumes_pass()
    ensures passes { (f : Production) (m : Matter) (tiff : Judging)
        → IsValid m
        → KeepsProduction m f
        → AreShortFiles (volume_of f m)
        → IsTiff tiff
        → check_of (file_map (volume_of f m)) tiff (own_operands f.request) ≡ Ok (own_counts f m) }
    ensures answered { (f : Production) (m : Matter) (result : Result Checked ImportRefusal)
        → IsValid m
        → KeepsProduction m f
        → AreShortFiles (volume_of f m)
        → ChecksAs (file_map (volume_of f m)) (own_operands f.request) result
        → StepGives (λ checked. checked) result (Ok (own_counts f m)) }
{
    images_are_read();
    one_answer();
}

/// No two files of the volume of a production that a valid matter keeps have one path, so what
/// `file_of` gives for the path of any of them is that file.
pub fn each_file_is_found()
    ensures differ { (f : Production) (m : Matter)
        → IsValid m
        → KeepsProduction m f
        → IsTrue (paths_differ (volume_of f m)) }
    ensures found { (f : Production) (m : Matter)
        → IsValid m
        → KeepsProduction m f
        → All (λ row. file_at row.path (volume_of f m) ≡ Some row.bytes) (volume_of f m) }
{}
