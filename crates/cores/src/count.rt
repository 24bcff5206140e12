//! The count of preemptions.
ghost use Rattle.std.specs.Prelude.{◌≡◌, ◌≤◌, ◌==◌, length, position};
ghost use Rattle.cores.specs.Counting.{LookedUp, preemptions};

/// Where a list names the task first.
fn find(named: &[u8], task: u8) -> Option<usize>
    ensures { result ≡ position (λ there. there == task) named.now }
{
    named.iter().position(|there| *there == task)
}

/// Where a list names the task. Looks from one place on first: in rising lists the next task stands after the last one.
fn look_up(named: &[u8], task: u8, from: usize) -> Option<usize>
    requires { from ≤ length named.now }
    ensures { LookedUp named.now task result }
{
    match find(&named[from..], task) {
        Some(place) => Some(from + place),
        None => find(&named[..from], task),
    }
}

/// How many tasks are preempted: those that had left after the tick before, which named them, and that this tick does not
/// name.
pub fn preempted(unfinished: &[u8], named: &[u8]) -> usize
    ensures { result ≡ preemptions unfinished.now named.now }
{
    let mut count = 0;
    let mut next = 0;
    for task in unfinished {
        match look_up(named, *task, next) {
            Some(place) => next = place + 1,
            None => count += 1,
        }
    }
    count
}
