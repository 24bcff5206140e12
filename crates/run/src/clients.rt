//! The clients of a server.
ghost use Rattle.std.specs.Prelude.{◌≡◌, ◌≤◌, length};
ghost use Rattle.levels.specs.Items.{clients};
ghost use Rattle.run.specs.Levels.{items_in, items_of};
ghost use Rattle.run.specs.Turns.{place_of, places_from};

use crate::level::{Level, Packed};
use arrayvec::ArrayVec;
use choosing::Share;
use packing::{TASKS, is_home};

/// The clients of a server, as a rule is shown them, and the place of each among the items of the level.
#[derive(Default, Drop)]
pub(crate) struct Clients {
    pub shares: ArrayVec<Share, TASKS>,
    places: ArrayVec<u8, TASKS>,
}

impl Clients {
    /// Copies out those of the packed things whose home is the server.
    fn copy<T: Packed>(&mut self, packed: &[T], unit: u32, server: usize)
        requires few { length packed.now ≤ 80 }
        requires unit { unit ≤ 1000 }
        ensures shares { self.new.shares.items ≡ clients (items_in T.item unit packed.now) server }
        ensures places { self.new.places.items ≡ places_from 0 (items_in T.item unit packed.now) server }
    {
        self.shares.clear();
        self.places.clear();
        for (i, item) in packed.iter().enumerate() {
            if is_home(item.home(), server) {
                self.shares.push(item.share(unit));
                self.places.push(i as u8);
            }
        }
    }

    /// Copies out the clients of a server.
    pub fn copy_out(&mut self, level: &Level, server: usize)
        ensures shares { self.new.shares.items ≡ clients (items_of level.now) server }
        ensures places { self.new.places.items ≡ places_from 0 (items_of level.now) server }
        ensures few { length (items_of level.now) ≤ 80 }
    {
        let unit = level.state.unit;
        if level.number == 0 {
            self.copy(level.tasks(), unit, server);
        } else {
            self.copy(level.below(), unit, server);
        }
    }

    /// The place of a client, if there is such a client.
    pub fn place(&self, client: Option<usize>) -> Option<usize>
        ensures { result ≡ place_of client self.now.places.items }
    {
        let place = self.places.get(client?)?;
        Some(usize::from(*place))
    }
}
