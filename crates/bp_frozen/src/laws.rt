//! The law of freezes in a history. The function does nothing: its contract is the law.
ghost use Rattle.bp_frozen.specs.Frozen.{FreezeLaw};

use bp_press::{same_product, same_volume};

/// Wherever a history of calls has a freeze that was answered with a production: the production is the
/// defined one, it is kept from then on, and its volume after the whole history is what it was right
/// after the freeze, whatever was called since. Each other matter that shows the same of the production
/// has the same volume of it, to the byte; and in each that is like the one before the freeze the same
/// is frozen, with that volume.
pub fn freezes_stand()
    ensures { FreezeLaw }
{
    same_volume();
    same_product();
}
