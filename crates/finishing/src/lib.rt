// A job whose plan is known: its picks, its walk, its sheet and its page (#103), or refusal 9 or 11.
#![tactic(auto)]

ghost use Rattle.std.specs.Prelude.{◌≡◌, ◌≤◌, ◌<◌, ℕ, List, IfOk, IfErr, length};
ghost use Rattle.std.proofs.Props.{props};
ghost use Rattle.rules.specs.declared.Refusal.TheVariants.{SheetSpace};
ghost use Rattle.rules.specs.Sheet.{sheet_text};
ghost use Rattle.sheets.specs.Parts.{text_of};
ghost use Rattle.values.specs.Values.{Sound, RoutedOf, job_of};
ghost use Rattle.values.specs.Shelves.{ShelfOf};
ghost use Rattle.values.specs.FixedLists.{items};
ghost use Rattle.finishing.specs.Answered.{written, Replied};
ghost use Rattle.finishing.specs.Paged.{page_written, PageReplied};
ghost use Rattle.finishing.specs.Toured.{Toured};

use rules::{PageReply, Refusal};
use sheets::Sheet;
use values::{JobValue, PickList, Routed, RunList, Shelf};

// A job to which no refusal of 1 to 8 and 12 applies, what its cells hold for the list, and its plan.
#[derive(Clone, Copy)]
pub struct RoutedJob {
    pub job: JobValue,
    pub shelf: Shelf,
    pub routed: Routed,
    pub ghost known: { Sound job × ShelfOf (job_of job) shelf × RoutedOf (job_of job) routed } by { Prim.hlevel props },
}

// The picks of a routed job's plan, and the runs of its walk.
#[derive(Clone, Copy)]
struct Tour {
    picks: PickList,
    runs: RunList,
}

impl RoutedJob {
    // The picks and the runs of its plan.
    fn tour(&self) -> Tour
        ensures { Toured (job_of self.now.job) (items result.picks) (items result.runs) }
    {
        let layout = self.job.layout;
        let plan = self.routed.plan;
        let picks = picks::picks(self.job.lines, layout.cells, &self.shelf, plan);
        let runs = walks::walk_runs(layout, plan);
        Tour { picks, runs }
    }

    // The parts of its sheet; refused where their text is longer than its space.
    fn sheet<'a>(&'a self, tour: &'a Tour, space: usize) -> Result<Sheet<'a>, Refusal>
        requires { Toured (job_of self.now.job) (items tour.now.picks) (items tour.now.runs) }
        ensures ok { IfOk result (λ s. (text_of s ≡ sheet_text (job_of self.now.job)) × (length (text_of s) ≤ space)) }
        ensures err { IfErr result (λ cause. (cause ≡ SheetSpace) × (space < length (sheet_text (job_of self.now.job)))) }
    {
        let sheet = Sheet {
            policy: self.job.policy,
            length: self.routed.length,
            plan: &self.routed.plan,
            picks: &tour.picks,
            runs: &tour.runs,
        };
        if space < sheet.size() {
            return Err(Refusal::SheetSpace);
        }
        Ok(sheet)
    }

    // Its sheet, in front of its space; refused where it is longer than that. (Not inlined, as its neighbour below: what it needs would
    // lie on the stack beside what the router needs.)
    #[inline(never)]
    pub fn finish(&self, sheet: &mut [u8]) -> Result<usize, Refusal>
        ensures { (work : List ℕ) → Replied (written (job_of self.now.job) sheet.old work) result sheet.new }
    {
        let tour = self.tour();
        let parts = self.sheet(&tour, sheet.len())?;
        Ok(parts.write(sheet))
    }

    // Its sheet and its page, each in front of its space; refused where the one or the other is longer than that. Both spaces are
    // tested before a byte is written.
    #[inline(never)]
    pub fn finish_page(&self, sheet: &mut [u8], page: &mut [u8]) -> Result<PageReply, Refusal>
        ensures { (work : List ℕ) → PageReplied (page_written (job_of self.now.job) sheet.old page.old work) result sheet.new page.new }
    {
        let tour = self.tour();
        let parts = self.sheet(&tour, sheet.len())?;
        if page.len() < pages::page_size(&tour.picks) {
            return Err(Refusal::PageSpace);
        }
        let sheet = parts.write(sheet);
        let (picks, runs) = (tour.picks.as_slice(), tour.runs.as_slice());
        let order = visits::in_order(self.job.layout, picks, runs);
        let page = pages::write_page(page, &order);
        Ok(PageReply { sheet, page })
    }
}
