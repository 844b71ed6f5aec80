//! The laws of the freeze. The functions do nothing: the contract of each is the law.
ghost use Rattle.std.specs.Prelude.{◌≡◌, ℕ, IsTrue, List, Ok, Some};
ghost use Rattle.bp_matter.specs.Matter.{Matter};
ghost use Rattle.bp_matter.specs.Valid.{IsValid};
ghost use Rattle.bp_matter.specs.ValidProductions.{itself};
ghost use Rattle.bp_core.specs.Differing.{all_differ};
ghost use Rattle.bp_matter.specs.declared.rows.Production.{Production};
ghost use Rattle.bp_matter.specs.declared.rows.Request.{Request};
ghost use Rattle.bp_freeze.specs.Alike.{DecidedAlike};
ghost use Rattle.bp_freeze.specs.Freezing.{freeze_of, kept_production};
ghost use Rattle.bp_freeze.specs.Keeping.{KeepsProduction, frozen_matter};
ghost use Rattle.bp_freeze.specs.Numbers.{AreTakenOnce, all_labels};
ghost use Rattle.bp_freeze.specs.Together.{FamiliesStandOnce, FamiliesStandWhole, ItemsAscend};

/// Two matters in which the same was decided, and whose documents of the range that aren't withheld
/// have as many pages, answer a request alike, refusals included.
pub fn same_freeze()
    ensures { (q : Request) (m n : Matter) → DecidedAlike q m n → freeze_of m q ≡ freeze_of n q }
{}

/// A freeze keeps a matter valid: the matter with the production and the numbers that it took is one
/// again.
pub fn frozen_is_valid()
    ensures { (m : Matter) (q : Request) (f : Production) →
        IsValid m →
        freeze_of m q ≡ Ok f →
        IsValid (frozen_matter f m) }
{}

/// In a valid matter the label numbers under each prefix are 1 up to the next, each taken once, in
/// the order of the productions; no production has a prefix that isn't kept, and no two labels are
/// alike.
pub fn numbers_are_taken_once()
    ensures numbers { (m : Matter) → IsValid m → AreTakenOnce m }
    ensures labels { (m : Matter) →
        IsValid m →
        IsTrue (all_differ itself (all_labels m.productions)) }
{}

/// In a valid matter no two productions have an item of one family; beside an item stand items of
/// all documents of its family, in ascending order.
pub fn families_stand_together()
    ensures once { (m : Matter) → IsValid m → FamiliesStandOnce m }
    ensures whole { (m : Matter) → IsValid m → FamiliesStandWhole m }
    ensures order { (m : Matter) → IsValid m → ItemsAscend m }
{}

/// A repeated request gives the stored production, takes no new number and changes nothing; so does
/// the request of each production that a matter keeps.
pub fn a_repeat_is_stored()
    ensures repeated { (m : Matter) (q : Request) (f : Production) →
        freeze_of m q ≡ Ok f →
        freeze_of (frozen_matter f m) q ≡ Ok f }
    ensures unchanged { (m : Matter) (q : Request) (f : Production) →
        freeze_of m q ≡ Ok f →
        frozen_matter f (frozen_matter f m) ≡ frozen_matter f m }
    ensures stored { (m : Matter) (f : Production) →
        KeepsProduction m f →
        freeze_of m f.request ≡ Ok f }
    ensures left { (m : Matter) (f : Production) → KeepsProduction m f → frozen_matter f m ≡ m }
{}

/// A freeze keeps each production that was kept, and its own, under the id that was asked for.
pub fn a_freeze_keeps()
    ensures others { (m : Matter) (q : Request) (f g : Production) →
        KeepsProduction m g →
        freeze_of m q ≡ Ok f →
        KeepsProduction (frozen_matter f m) g }
    ensures its_own { (m : Matter) (q : Request) (f : Production) →
        freeze_of m q ≡ Ok f →
        KeepsProduction (frozen_matter f m) f }
    ensures asked { (m : Matter) (q : Request) (f : Production) →
        freeze_of m q ≡ Ok f →
        kept_production (frozen_matter f m).productions q.id ≡ Some f }
{}

/// What `Tables::production` finds under an id is kept.
pub fn found_is_kept()
    ensures { (m : Matter) (id : List ℕ) (f : Production) →
        kept_production m.productions id ≡ Some f →
        KeepsProduction m f }
{}
