// The sections L, S, H and D. All lines are read and tested, and as many are kept as there are places for.
ghost use Rattle.std.specs.Prelude.{◌≡◌, length};
ghost use Rattle.rules.specs.JobFile.{read_lines, read_section, read_posts, read_layout_section};
ghost use Rattle.reading.specs.Kept.{Fills, filled, noted, readable_lines, readable_section};
ghost use Rattle.reading.specs.Places.{seen};

use crate::cursor::Cursor;
use crate::lines::Row;
use rules::{Layout, Policy, Posts};

impl<'a> Cursor<'a> {
    // The given number of lines: hands back that number and what is noted of them. The first lines go into the places, also where a line
    // behind them cannot be read.
    fn rows<T: Row>(
        self,
        count: usize,
        places: &mut [T],
        notes: T::Notes,
    ) -> Option<((usize, T::Notes), Cursor<'a>)>
        ensures found { Fills (λ xs. (length xs, noted T.noting notes xs)) (read_lines T.reads count self.entry.rest.now) places.old places.new result }
        ensures kept { places.new ≡ filled places.old (readable_lines T.reads count self.entry.rest.now) }
    {
        let mut notes = notes;
        let mut here = self;
        for i in 0..count {
            let (row, next) = T::read(here)?;
            if i < places.len() {
                places[i] = row;
            }
            notes = row.note(notes);
            here = next;
        }
        Some(((count, notes), here))
    }

    // A section with that letter: the number of its lines and what is noted of them. The first lines go into the places, as for `rows`.
    #[tactic(auto, using(crate::proofs::Storing::filled_none), unfolding(rules::specs::JobFile::read_section, crate::specs::Kept::readable_section))]
    pub fn section<T: Row>(
        self,
        letter: u8,
        places: &mut [T],
        notes: T::Notes,
    ) -> Option<((usize, T::Notes), Cursor<'a>)>
        ensures found { Fills (λ xs. (length xs, noted T.noting notes xs)) (read_section letter T.reads self.entry.rest.now) places.old places.new result }
        ensures kept { places.new ≡ filled places.old (readable_section letter T.reads self.entry.rest.now) }
    {
        let (count, next) = self.header(letter)?;
        next.rows(count, places, notes)
    }

    // What is behind the first line of the L section, by the section's count.
    #[tactic(auto, unfolding(rules::specs::JobFile::read_posts))]
    fn posts_behind(self, count: usize) -> Option<(Posts, Cursor<'a>)>
        ensures { seen result ≡ read_posts count self.entry.rest.now }
    {
        match count {
            1 => Some((Posts::NoPosts, self)),
            2 => self.posts(),
            3 => self.sided_posts(),
            _ => None,
        }
    }

    // The L section.
    #[tactic(auto, unfolding(rules::specs::JobFile::read_layout_section))]
    pub fn layout_section(self) -> Option<((Layout, Policy), Cursor<'a>)>
        ensures { seen result ≡ read_layout_section self.entry.rest.now }
    {
        let (count, next) = self.header(b'L')?;
        let ((layout, policy), next) = next.layout()?;
        let (posts, next) = next.posts_behind(count)?;
        Some(((Layout { posts, ..layout }, policy), next))
    }
}
