// The wall of the press: of the tables, a volume is shown what is lent of one production alone. Nothing
// here is given an allocator or can refuse, and what takes memory sees the tables by these calls alone.
ghost use Rattle.std.specs.Prelude.{◌≡◌};
ghost use Rattle.bp_matter.specs.Valid.{IsValid};
ghost use Rattle.bp_press.specs.Shown.{matter_behind, production_shown};

use crate::jobs::Job;
use crate::lent::{CoveredImage, CoveredJobs, KeptWords, ShownValue, image_of, value_of, words_of};
use crate::shown::Shows;
use bp_core::{PageNo, Text};
use bp_matter::{Item, Production, Tables};

/// Tables, of which no more is lent than a volume of one production shows: the way to the matter for
/// what makes a file and may want memory.
#[derive(Clone, Copy)]
pub struct Covered<'m> {
    tables: &'m Tables,
    production: &'m Production,
}

impl<'m> Covered<'m> {
    /// Of these tables what a volume of the production shows.
    pub fn of(tables: &'m Tables, production: &'m Production) -> Covered<'m>
        ensures matter { matter_behind result ≡ tables.now.matter }
        ensures production { production_shown result ≡ production.now }
    {
        Covered { tables, production }
    }

    // Says that the tables are valid.
    pub(crate) fn know_valid(&self)
        ensures { IsValid (matter_behind self.now) }
    {
        self.tables.know_valid();
    }
}

impl<'m> Shows for Covered<'m> {
    ghost matter = { λ covered. matter_behind covered };

    ghost production = { λ covered. production_shown covered };

    fn production(&self) -> &Production {
        self.production
    }

    fn pages(&self, item: &Item) -> u32 {
        let tables = self.tables;
        tables.docs[item.doc.0 as usize - 1].pages
    }

    fn words<'w>(&'w self, item: &'w Item, page: PageNo) -> KeptWords<'w> {
        words_of(self.tables, item, page)
    }

    fn value<'v>(&'v self, item: &'v Item, name: &Text) -> ShownValue<'v> {
        match self.tables.field_with(name) {
            Some(row) => value_of(self.tables, item, row.field),
            None => ShownValue::Nothing,
        }
    }

    fn image<'j>(&'j self, job: &'j Job) -> CoveredImage<'j> {
        image_of(self.tables, job)
    }

    fn images<'j>(&'j self, jobs: &'j [Job]) -> CoveredJobs<'j> {
        CoveredJobs::of(self.tables, jobs)
    }
}
