// What a volume shows of a matter for one production, and no more. What takes memory for a volume has no
// other way to the matter.
ghost use Rattle.std.specs.Prelude.{◌≡◌, ◌≤◌, All, None, length};
ghost use Rattle.std.specs.List.{Contains};
ghost use Rattle.bp_matter.specs.Matter.{Matter};
ghost use Rattle.bp_matter.specs.declared.rows.Production.{Production as Whole};
ghost use Rattle.bp_freeze.specs.Seeing.{page_count};
ghost use Rattle.bp_press.specs.Contents.{ground_of, value_shown};
ghost use Rattle.bp_press.specs.Jobs.{IsCodable, page_of_job};
ghost use Rattle.bp_press.specs.Shown.{CanBeCoded, IsOwnJob, image_lent, shown_words, value_lent, words_left};

use crate::jobs::Job;
use crate::lent::{CoveredImage, CoveredJobs, KeptWords, ShownValue};
use bp_core::{PageNo, Text};
use bp_matter::{Item, Production};

// What a volume shows of a matter for one production. No call takes memory, and none refuses.
pub(crate) trait Shows {
    // The matter, of which nothing else is shown.
    ghost matter: { Self → Matter };

    // The production. Its items alone may be asked for.
    ghost production: { Self → Whole };

    fn production(&self) -> &Production
        ensures { result.now ≡ production self.now };

    // How many pages an item has that isn't withheld.
    fn pages(&self, item: &Item) -> u32
        requires there { Contains (production self.now).items item.now }
        requires shown { ground_of item.now.treatment ≡ None }
        requires from { 1 ≤ item.now.doc.0 }
        requires to { item.now.doc.0 ≤ length (matter self.now).docs }
        ensures { result ≡ page_count (matter self.now) item.now.doc.0 };

    // The words of a page of an item that isn't withheld which no box of the item touches.
    fn words<'w>(&'w self, item: &'w Item, page: PageNo) -> KeptWords<'w>
        requires there { Contains (production self.now).items item.now }
        requires shown { ground_of item.now.treatment ≡ None }
        ensures { words_left result ≡ shown_words (matter self.now) item.now page.0 };

    // What stands for an item that isn't withheld in the column of a chosen field.
    fn value<'v>(&'v self, item: &'v Item, name: &Text) -> ShownValue<'v>
        requires there { Contains (production self.now).items item.now }
        requires shown { ground_of item.now.treatment ≡ None }
        requires chosen { Contains (production self.now).request.fields name.now }
        ensures { value_lent result ≡ value_shown (matter self.now) item.now name.now };

    // The image of a job of the production, its page covered.
    fn image<'j>(&'j self, job: &'j Job) -> CoveredImage<'j>
        requires own { IsOwnJob (production self.now) job.now }
        requires codable { IsCodable (matter self.now) job.now }
        ensures is { image_lent result ≡ page_of_job (matter self.now) job.now }
        ensures can { CanBeCoded result };

    // The images of jobs of the production, as `image` lends each.
    fn images<'j>(&'j self, jobs: &'j [Job]) -> CoveredJobs<'j>
        requires own { All (IsOwnJob (production self.now)) jobs.now }
        ensures matter { result.tables.now.matter ≡ matter self.now }
        ensures jobs { result.jobs.now ≡ jobs.now };
}
