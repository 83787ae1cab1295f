// The sections M and H (#106): the minute of the day, and the windows in which aisles are open.
ghost use Rattle.std.specs.Prelude.{◌≡◌};
ghost use Rattle.rules.specs.JobFile.{read_minute, read_clock, read_hours};
ghost use Rattle.reading.specs.Kept.{hours_kept};
ghost use Rattle.reading.specs.Places.{seen};

use crate::cursor::Cursor;
use rules::Window;
use values::Clock;

impl<'a> Cursor<'a> {
    // The M section: its count is 1, and its line is the minute.
    #[tactic(auto, unfolding(rules::specs::JobFile::read_minute))]
    fn minute(self) -> Option<(usize, Cursor<'a>)>
        ensures { seen result ≡ read_minute self.entry.rest.now }
    {
        let (count, next) = self.header(b'M')?;
        if count == 1 { next.field(b'\n') } else { None }
    }

    // The sections M and H.
    #[tactic(auto, unfolding(rules::specs::JobFile::read_clock))]
    fn clock(self) -> Option<(Option<Clock>, Cursor<'a>)>
        ensures { seen result ≡ hours_kept (read_clock self.entry.rest.now) }
    {
        let (minute, next) = self.minute()?;
        let mut windows = [Window::default(); 64];
        let ((count, ()), next) = next.section(b'H', &mut windows, ())?;
        let clock = Clock {
            minute,
            count,
            windows,
        };
        Some((Some(clock), next))
    }

    // The sections M and H where an M stands here; else neither.
    pub fn hours(self) -> Option<(Option<Clock>, Cursor<'a>)>
        ensures { seen result ≡ hours_kept (read_hours self.entry.rest.now) }
    {
        match self.rest {
            [b'M', ..] => self.clock(),
            _ => Some((None, self)),
        }
    }
}
