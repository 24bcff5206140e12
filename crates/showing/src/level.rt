//! A level of a plan as text.
ghost use Rattle.std.specs.Fmt.{WritesOnOk};
ghost use Rattle.std.specs.Prelude.{Some};
ghost use Rattle.packing.specs.Tables.{packing_in};
ghost use Rattle.showing.specs.Texts.{client_text, clients_text, item_text, level_text, server_text, servers_text};

use crate::names::TaskNames;
use packing::{Level, is_home};
use std::fmt;

/// A level of a plan, to be printed: a line with its depth, then a line for each server, with its rate, whether it is a root,
/// and its clients in placing order.
#[derive(Clone, Copy)]
pub struct LevelText<'a, N> {
    /// what the tasks are called
    pub names: &'a N,
    /// the parts in one whole core
    pub unit: u16,
    /// how many levels are below
    pub depth: usize,
    pub level: &'a Level,
}

impl<'a, N: TaskNames> LevelText<'a, N> {
    /// Writes an item: a task, or the dual of a server of the level below.
    fn write_item<W: fmt::Write>(&self, f: &mut fmt::Formatter<W>, item: usize) -> fmt::Result
        ensures { WritesOnOk W.write_str_gives f.old result (item_text (N.name self.now.names.now) self.now.depth item) f.new }
    {
        if self.depth == 0 {
            self.names.write_name(f, item)
        } else {
            write!(f, "dual of server {item}")
        }
    }

    /// Writes a client behind a colon, or where it is not the first, behind a comma.
    fn write_client<W: fmt::Write>(
        &self,
        f: &mut fmt::Formatter<W>,
        item: usize,
        first: bool,
    ) -> fmt::Result
        ensures { WritesOnOk W.write_str_gives f.old result (client_text (item_text (N.name self.now.names.now) self.now.depth) first item) f.new }
    {
        let before = if first { ": " } else { ", " };
        write!(f, "{before}")?;
        self.write_item(f, item)
    }

    /// Writes the clients of a server, in placing order.
    fn write_clients<W: fmt::Write>(&self, f: &mut fmt::Formatter<W>, server: usize) -> fmt::Result
        ensures { WritesOnOk W.write_str_gives f.old result (clients_text (item_text (N.name self.now.names.now) self.now.depth) server (packing_in self.now.level.now).homes) f.new }
    {
        let homes = self.level.item_homes();
        let mut first = true;
        for (item, home) in homes.iter().enumerate() {
            if is_home(*home, server) {
                self.write_client(f, item, first)?;
                first = false;
            }
        }
        Ok(())
    }

    /// Writes the line of a server.
    fn write_server<W: fmt::Write>(
        &self,
        f: &mut fmt::Formatter<W>,
        server: usize,
        rate: u16,
    ) -> fmt::Result
        ensures { WritesOnOk W.write_str_gives f.old result (server_text (item_text (N.name self.now.names.now) self.now.depth) self.now.unit (packing_in self.now.level.now).homes server rate) f.new }
    {
        let root = if rate == self.unit { ", a root" } else { "" };
        write!(f, "  server {server}, rate {rate}{root}")?;
        self.write_clients(f, server)?;
        writeln!(f, "")
    }

    /// Writes a line for each server.
    fn write_servers<W: fmt::Write>(&self, f: &mut fmt::Formatter<W>) -> fmt::Result
        ensures { WritesOnOk W.write_str_gives f.old result (servers_text (item_text (N.name self.now.names.now) self.now.depth) self.now.unit (packing_in self.now.level.now).homes 0 (packing_in self.now.level.now).rates) f.new }
    {
        let rates = self.level.server_rates();
        for (server, rate) in rates.iter().enumerate() {
            self.write_server(f, server, *rate)?;
        }
        Ok(())
    }
}

impl<'a, N: TaskNames> fmt::Display for LevelText<'a, N> {
    ghost output = { λ shown. Some (level_text (N.name shown.names.now) shown.depth shown.unit (packing_in shown.level.now).homes (packing_in shown.level.now).rates) };

    fn fmt<W: fmt::Write>(&self, f: &mut fmt::Formatter<W>) -> fmt::Result {
        let depth = self.depth;
        writeln!(f, "level {depth}")?;
        self.write_servers(f)
    }
}
