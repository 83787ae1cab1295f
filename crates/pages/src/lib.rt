// The clipboard page (#103): a line for each pick, written into lent space.
#![tactic(auto)]

mod columns;

ghost use Rattle.std.specs.Prelude.{◌≡◌, ◌*◌, ◌≤◌, length};
ghost use Rattle.rules.specs.Lists.{concat_of};
ghost use Rattle.rules.specs.Page.{page_line};
ghost use Rattle.values.specs.FixedLists.{items};
ghost use Rattle.lines.specs.Written.{Written};

use crate::columns::write_line;
use values::PickList;

// The bytes of a line: 24 and the line feed.
const LINE: usize = 25;

// The byte count of the page of these picks. (That each line has 25 bytes where its numbers fit is proved: proofs/PageLines)
pub fn page_size(picks: &PickList) -> usize
    ensures { result ≡ 25 * length (items picks.now) }
{
    LINE * picks.len()
}

// Writes the lines of the picks, in their order. (A pick's line here is not its line in the P section, which is its `Line`.)
pub fn write_page(page: &mut [u8], picks: &PickList) -> usize
    requires { length (concat_of page_line (items picks.now)) ≤ length page.old }
    ensures { Written (concat_of page_line (items picks.now)) page.old page.new result }
{
    let mut at = 0;
    for pick in picks.as_slice() {
        at += write_line(&mut page[at..], pick);
    }
    at
}
