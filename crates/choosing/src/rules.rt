//! The two choosing rules: earliest deadline and least slack.
ghost use Rattle.std.specs.Prelude.{◌≡◌, Bool};
ghost use Rattle.std.specs.Cmp.{IsStrictWeakOrder};
ghost use Rattle.choosing.specs.declared.share.Share.{Share};
ghost use Rattle.choosing.specs.Rules.{IsEarliestDeadline, IsLeastSlack, slack, sooner, tighter, first_unbeaten, earliest_deadline, least_slack};
ghost use Rattle.choosing.specs.Lawfulness.{earliest_deadline_lawful, least_slack_lawful, ranks_sooner, ranks_tighter};
ghost use Rattle.choosing.specs.Steadiness.{earliest_deadline_goes_on};

use crate::choosing::{Choosing, Steady};
use crate::limits::CLIENTS;
use crate::share::Share;

/// Which of two clients of a server is preferred. Of equals the earlier one is kept.
trait Preference {
    ghost beats: { Self → Share → Share → Share → Bool };

    /// Whether `one` is preferred to `other`.
    fn prefers(&self, server: Share, one: Share, other: Share) -> bool
        ensures { result ≡ beats self.now server one other };

    ghost ranks: { (p : Self) (s : Share) → IsStrictWeakOrder (beats p s) };
}

/// The preferred client with left; none where there are more than 80 clients.
fn preferred<P: Preference>(preference: &P, server: Share, clients: &[Share]) -> Option<usize>
    ensures { result ≡ first_unbeaten (P.beats preference.now server) clients.now }
{
    if clients.len() > CLIENTS {
        return None;
    }
    let mut best: Option<usize> = None;
    for (i, client) in clients.iter().enumerate() {
        if client.left > 0 && best.is_none_or(|b| preference.prefers(server, *client, clients[b])) {
            best = Some(i);
        }
    }
    best
}

/// The client with left that has the earliest deadline, the first of equals.
#[derive(Clone, Copy)]
pub struct EarliestDeadline;

impl Preference for EarliestDeadline {
    ghost beats = { λ _ _. sooner };

    ghost ranks = { λ _ _. ranks_sooner };

    fn prefers(&self, _server: Share, one: Share, other: Share) -> bool {
        one.deadline < other.deadline
    }
}

impl Choosing for EarliestDeadline {
    ghost chosen = { λ _. earliest_deadline };

    ghost lawful = { λ rule. earliest_deadline_lawful };

    fn choose(&self, server: Share, clients: &[Share]) -> Option<usize>
        ensures answer { result ≡ earliest_deadline server clients.now }
        ensures meaning { IsEarliestDeadline clients.now result }
    {
        preferred(self, server, clients)
    }
}

impl Steady for EarliestDeadline {
    ghost steady = { λ rule. earliest_deadline_goes_on };
}

/// The slack of a client: what its server brings up to the client's deadline, less what the client has left. It may be
/// negative.
fn slack_of(server: Share, client: Share) -> i64
    ensures { result ≡ slack server client }
{
    let frames = i64::from(client.deadline) - i64::from(server.deadline);
    i64::from(server.left) + i64::from(server.rate) * frames - i64::from(client.left)
}

/// The client with left that has the least slack, the first of equals.
#[derive(Clone, Copy)]
pub struct LeastSlack;

impl Preference for LeastSlack {
    ghost beats = { λ _. tighter };

    ghost ranks = { λ _. ranks_tighter };

    fn prefers(&self, server: Share, one: Share, other: Share) -> bool {
        slack_of(server, one) < slack_of(server, other)
    }
}

impl Choosing for LeastSlack {
    ghost chosen = { λ _. least_slack };

    ghost lawful = { λ rule. least_slack_lawful };

    fn choose(&self, server: Share, clients: &[Share]) -> Option<usize>
        ensures answer { result ≡ least_slack server clients.now }
        ensures meaning { IsLeastSlack server clients.now result }
    {
        preferred(self, server, clients)
    }
}
