// Which aisles are open by the clock (#106).
#![tactic(auto)]

ghost use Rattle.std.specs.Prelude.{◌≡◌, false, ℕ, ◌-◌, ◌≤◌, get_or, IfSome, Some};
ghost use Rattle.rules.specs.Hours.{is_open};
ghost use Rattle.values.specs.Values.{hours_of};

use values::Clock;

// Whether an aisle is open: it has no window, or the minute lies in one of its windows.
fn is_open(clock: &Clock, aisle: usize) -> bool
    requires { clock.now.count ≤ 64 }
    ensures { result ≡ is_open (hours_of (Some clock.now)) aisle }
{
    let minute = clock.minute;
    let windows = &clock.windows[..clock.count];
    let named = windows.iter().any(|w| usize::from(w.aisle) == aisle);
    !named
        || windows.iter().any(|w| {
            usize::from(w.aisle) == aisle
                && usize::from(w.from) <= minute
                && minute < usize::from(w.to)
        })
}

// Which aisles are open, aisle j at j - 1: without a clock every one.
pub fn open_aisles(hours: Option<Clock>) -> [bool; 16]
    requires { IfSome hours (λ clock. clock.count ≤ 64) }
    ensures { (j : ℕ) → 1 ≤ j → j ≤ 16 → get_or result (j - 1) false ≡ is_open (hours_of hours) j }
{
    let mut open = [true; 16];
    if let Some(clock) = hours {
        for (i, flag) in open.iter_mut().enumerate() {
            *flag = is_open(&clock, i + 1);
        }
    }
    open
}
