//! What a frame start does to the servers of a level.
ghost use Rattle.std.specs.Prelude.{◌≡◌, ◌≤◌};
ghost use Rattle.levels.specs.Items.{clients};
ghost use Rattle.levels.specs.Renewing.{least_deadline, renew_server, renew_servers, server_with_job};
ghost use Rattle.run.specs.Levels.{items_of, servers_of};

use crate::clients::Clients;
use crate::level::Level;
use arrayvec::ArrayVec;
use choosing::Share;
use levels::Server;
use packing::SERVERS;

/// The least deadline of some clients, and at most the number of frames.
fn least_deadline(clients: &[Share], frames: u32) -> u32
    ensures least { result ≡ least_deadline frames clients.now }
    ensures most { result ≤ frames }
{
    let mut best = frames;
    for client in clients {
        best = client.deadline.min(best);
    }
    best
}

/// A server with its next job and that of its dual, from this frame to the deadline.
fn with_job(server: Server, unit: u32, frame: u32, deadline: u32) -> Server
    requires { (unit ≤ 1000) × (deadline ≤ 65535) }
    ensures { result ≡ server_with_job unit frame deadline server }
{
    let frames = deadline.saturating_sub(frame);
    let rate = u32::from(server.share.rate);
    Server {
        share: Share {
            left: rate * frames,
            deadline,
            ..server.share
        },
        dual: unit.saturating_sub(rate) * frames,
        ..server
    }
}

/// A server at a frame start: one whose deadline it is takes the least deadline of its clients.
fn renewed(server: Server, level: &Level, place: usize, frame: u32, copied: &mut Clients) -> Server
    ensures { result ≡ renew_server level.now.state.now.unit level.now.state.now.frames frame (clients (items_of level.now) place) server }
{
    if server.share.deadline != frame {
        return server;
    }
    copied.copy_out(level, place);
    let deadline = least_deadline(&copied.shares, level.state.frames);
    with_job(server, level.state.unit, frame, deadline)
}

/// The servers of a level at a frame start.
pub(crate) fn renewed_servers(level: &Level, frame: u32) -> ArrayVec<Server, SERVERS>
    ensures { result.items ≡ renew_servers level.now.state.now.unit level.now.state.now.frames frame (items_of level.now) 0 (servers_of level.now) }
{
    let mut copied = Clients::default();
    let mut servers = ArrayVec::new();
    for (place, server) in level.servers().iter().enumerate() {
        servers.push(renewed(*server, level, place, frame, &mut copied));
    }
    servers
}
