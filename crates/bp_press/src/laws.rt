//! The laws of the volume. The functions do nothing: the contract of each is the law.
ghost use Rattle.std.specs.Prelude.{◌≡◌, Ok};
ghost use Rattle.bp_matter.specs.Matter.{Matter};
ghost use Rattle.bp_matter.specs.Valid.{IsValid};
ghost use Rattle.bp_matter.specs.declared.rows.Production.{Production};
ghost use Rattle.bp_matter.specs.declared.rows.Request.{Request};
ghost use Rattle.bp_freeze.specs.Agree.{Agree};
ghost use Rattle.bp_freeze.specs.Alike.{Alike};
ghost use Rattle.bp_freeze.specs.Freezing.{freeze_of};
ghost use Rattle.bp_freeze.specs.Keeping.{GrowsTo, KeepsProduction};
ghost use Rattle.bp_press.specs.ReadBack.{IsReadBack};
ghost use Rattle.bp_press.specs.Volume.{volume_of};

use bp_tiff::written_is_read;

/// Two matters that show the same of a production have the same volume of it, to the byte: pixels
/// in a box, words that it touches, held values, and all of a withheld document leave no trace.
pub fn same_volume()
    ensures { (f : Production) (m n : Matter) → Agree f m n → volume_of f m ≡ volume_of f n }
{}

/// What a request freezes in one of two matters that it can't tell apart is frozen in the other
/// too, and has the same volume there.
pub fn same_product()
    ensures frozen { (q : Request) (m n : Matter) (f : Production)
        → Alike q m n
        → freeze_of m q ≡ Ok f
        → freeze_of n q ≡ Ok f }
    ensures volume { (q : Request) (m n : Matter) (f : Production)
        → Alike q m n
        → freeze_of m q ≡ Ok f
        → volume_of f n ≡ volume_of f m }
{}

/// The volume of a production that a valid matter keeps stays as it is, whatever is decided later
/// and whatever comes in.
pub fn volume_stays()
    ensures { (f : Production) (m n : Matter)
        → IsValid m
        → KeepsProduction m f
        → GrowsTo m n
        → volume_of f n ≡ volume_of f m }
{}

/// Each image of the volume of a production that a valid matter keeps is read as the page, burned
/// and with its band, or the slip sheet that it was made of, and as no other page.
pub fn images_are_read()
    ensures { (f : Production) (m : Matter) → IsValid m → KeepsProduction m f → IsReadBack f m }
{
    written_is_read();
}
