// An article on two lines: refusal 6.
ghost use Rattle.std.specs.Prelude.{◌≡◌};
ghost use Rattle.rules.specs.Lists.{any_two};
ghost use Rattle.rules.specs.Refusals.{same_article};

use rules::OrderLine;

// Whether an article stands on two lines.
pub fn article_twice(lines: &[OrderLine]) -> bool
    ensures { result ≡ any_two same_article lines.now }
{
    for (i, line) in lines.iter().enumerate() {
        let others = &lines[i + 1..];
        if others.iter().any(|other| line.article == other.article) {
            return true;
        }
    }
    false
}
