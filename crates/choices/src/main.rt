//! Shows whom the two choosing rules name, tick by tick, until a server has nothing left.
#![tactic(auto)]

ghost use Rattle.std.specs.Prelude.{◌≡◌};
ghost use Rattle.choices.specs.Served.{server_after, clients_after, StaysBalanced};

use choosing::rules::{EarliestDeadline, LeastSlack};
use choosing::{Choosing, Share};
use std::io;

/// Gives one tick of a server to the client that the rule names, and answers that client. Where none is named, nothing
/// changes.
fn give_tick<C: Choosing>(rule: &C, server: &mut Share, clients: &mut [Share]) -> Option<usize>
    ensures named { result ≡ C.chosen rule.now server.old clients.old }
    ensures server { server.new ≡ server_after result server.old }
    ensures clients { clients.new ≡ clients_after result clients.old }
    ensures balance { StaysBalanced result server.old clients.old server.new clients.new }
{
    let named = rule.choose(*server, clients)?;
    server.spend();
    clients[named].spend();
    Some(named)
}

/// Prints what a server has left, and what each of its clients has.
fn print_left(rt: &HostRuntime, server: Share, clients: &[Share]) -> io::Result<()> {
    let left = server.left;
    print!(rt; "  left {left}, of clients")?;
    for client in clients {
        let left = client.left;
        print!(rt; " {left}")?;
    }
    Ok(())
}

/// Prints the client of each tick, until the server has nothing left.
fn show<C: Choosing>(
    rt: &HostRuntime,
    rule: &C,
    server: &mut Share,
    clients: &mut [Share],
) -> io::Result<()> {
    for _ in 0..server.left {
        print_left(rt, *server, clients)?;
        match give_tick(rule, server, clients) {
            Some(named) => println!(rt; ": client {named} is named")?,
            None => println!(rt; ": none is named")?,
        }
    }
    print_left(rt, *server, clients)?;
    println!(rt; "")
}

fn main(rt: HostRuntime) -> io::Result<()> {
    let server = Share {
        left: 5,
        rate: 5,
        deadline: 1,
    };
    let clients = [
        Share {
            left: 1,
            rate: 1,
            deadline: 1,
        },
        Share {
            left: 8,
            rate: 4,
            deadline: 2,
        },
    ];
    println!(rt; "earliest deadline")?;
    show(&rt, &EarliestDeadline, &mut { server }, &mut { clients })?;
    println!(rt; "least slack")?;
    show(&rt, &LeastSlack, &mut { server }, &mut { clients })
}
