// The lines of a job file: a cursor reads each and hands back its values and the next cursor.
ghost use Rattle.std.specs.Prelude.{◌≡◌, ℕ, List};
ghost use Rattle.rules.specs.JobFile.{Reading, read_policy, read_side, read_layout, read_posts_line, read_sided_lines, read_record, read_window, read_line};
ghost use Rattle.marks.specs.Marking.{mark_of};
ghost use Rattle.reading.specs.Places.{seen};

use crate::cursor::Cursor;
use marks::{Marks, mark};
use rules::{Layout, OrderLine, Policy, Posts, Side, StockRecord, Window};

impl<'a> Cursor<'a> {
    // One of the six policy words and a line feed.
    #[tactic(auto, unfolding(rules::specs::JobFile::read_policy, rules::specs::JobFile::read_policy_as))]
    fn policy(self) -> Option<(Policy, Cursor<'a>)>
        ensures { seen result ≡ read_policy self.entry.rest.now }
    {
        if let Some(next) = self.word(b"EXACT\n") {
            Some((Policy::Exact, next))
        } else if let Some(next) = self.word(b"RETURN\n") {
            Some((Policy::Return, next))
        } else if let Some(next) = self.word(b"TRAVERSAL\n") {
            Some((Policy::Traversal, next))
        } else if let Some(next) = self.word(b"MIDPOINT\n") {
            Some((Policy::Midpoint, next))
        } else if let Some(next) = self.word(b"COMPOSITE\n") {
            Some((Policy::Composite, next))
        } else if let Some(next) = self.word(b"LARGEST\n") {
            Some((Policy::Largest, next))
        } else {
            None
        }
    }

    // FRONT or BACK and a line feed.
    #[tactic(auto, unfolding(rules::specs::JobFile::read_side, rules::specs::JobFile::read_side_as))]
    fn side(self) -> Option<(Side, Cursor<'a>)>
        ensures { seen result ≡ read_side self.entry.rest.now }
    {
        if let Some(next) = self.word(b"FRONT\n") {
            Some((Side::FrontSide, next))
        } else if let Some(next) = self.word(b"BACK\n") {
            Some((Side::BackSide, next))
        } else {
            None
        }
    }

    // The first line of the L section: seven numbers and the policy word.
    #[tactic(auto, unfolding(rules::specs::JobFile::read_layout))]
    pub fn layout(self) -> Option<((Layout, Policy), Cursor<'a>)>
        ensures { seen result ≡ read_layout self.entry.rest.now }
    {
        let (aisles, next) = self.field(b' ')?;
        let (cells, next) = next.field(b' ')?;
        let (front, next) = next.field(b' ')?;
        let (pitch, next) = next.field(b' ')?;
        let (back, next) = next.field(b' ')?;
        let (width, next) = next.field(b' ')?;
        let (depot, next) = next.field(b' ')?;
        let (policy, next) = next.policy()?;
        let posts = Posts::NoPosts;
        let layout = Layout {
            aisles,
            cells,
            front,
            pitch,
            back,
            width,
            depot,
            posts,
        };
        Some(((layout, policy), next))
    }

    // The second line of the L section: how many cells stand between posts, and how wide a post is.
    #[tactic(auto, unfolding(rules::specs::JobFile::read_posts_line))]
    pub fn posts(self) -> Option<(Posts, Cursor<'a>)>
        ensures { seen result ≡ read_posts_line self.entry.rest.now }
    {
        let (cells, next) = self.field(b' ')?;
        let (wide, next) = next.field(b'\n')?;
        Some((Posts::Every(cells, wide), next))
    }

    // The second line of the L section and the third: the posts, and the word for the depot's side.
    #[tactic(auto, unfolding(rules::specs::JobFile::read_sided_lines))]
    pub fn sided_posts(self) -> Option<(Posts, Cursor<'a>)>
        ensures { seen result ≡ read_sided_lines self.entry.rest.now }
    {
        let (cells, next) = self.field(b' ')?;
        let (wide, next) = next.field(b'\n')?;
        let (side, next) = next.side()?;
        Some((Posts::Sided(cells, wide, side), next))
    }
}

// A line of a section, and what is noted as such lines are read.
pub trait Row: Copy {
    type Notes: Copy;

    ghost reads: { List ℕ → Reading Self };

    ghost noting: { Self.Notes → Self → Self.Notes };

    // The line that stands here, and the next cursor.
    fn read(cursor: Cursor<'_>) -> Option<(Self, Cursor<'_>)>
        ensures { seen result ≡ reads cursor.entry.rest.now };

    // The notes with those of this line.
    fn note(self, notes: Self::Notes) -> Self::Notes
        ensures { result ≡ noting notes self };
}

impl Row for StockRecord {
    type Notes = Marks;

    ghost reads = { read_record };

    ghost noting = { mark_of };

    // A line of the S section: aisle, cell, article, quantity.
    #[tactic(auto, unfolding(rules::specs::JobFile::read_record))]
    fn read(cursor: Cursor<'_>) -> Option<(Self, Cursor<'_>)> {
        let (aisle, next) = cursor.field(b' ')?;
        let (cell, next) = next.field(b' ')?;
        let (article, next) = next.field(b' ')?;
        let (quantity, next) = next.field(b'\n')?;
        let record = StockRecord {
            aisle,
            cell,
            article,
            quantity,
        };
        Some((record, next))
    }

    // Its cell is marked.
    fn note(self, notes: Marks) -> Marks {
        mark(notes, self)
    }
}

impl Row for OrderLine {
    type Notes = ();

    ghost reads = { read_line };

    ghost noting = { λ none _. none };

    // A line of the D section: article, quantity.
    #[tactic(auto, unfolding(rules::specs::JobFile::read_line))]
    fn read(cursor: Cursor<'_>) -> Option<(Self, Cursor<'_>)> {
        let (article, next) = cursor.field(b' ')?;
        let (quantity, next) = next.field(b'\n')?;
        Some((OrderLine { article, quantity }, next))
    }

    // Nothing is noted.
    fn note(self, _notes: ()) {}
}

impl Row for Window {
    type Notes = ();

    ghost reads = { read_window };

    ghost noting = { λ none _. none };

    // A line of the H section: aisle, from, to.
    #[tactic(auto, unfolding(rules::specs::JobFile::read_window))]
    fn read(cursor: Cursor<'_>) -> Option<(Self, Cursor<'_>)> {
        let (aisle, next) = cursor.field(b' ')?;
        let (from, next) = next.field(b' ')?;
        let (to, next) = next.field(b'\n')?;
        let window = Window {
            aisle: aisle as u16,
            from: from as u16,
            to: to as u16,
        };
        Some((window, next))
    }

    // Nothing is noted.
    fn note(self, _notes: ()) {}
}
