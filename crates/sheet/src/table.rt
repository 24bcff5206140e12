//! What a sheet holds: its head, and a task in each entry of a table.
ghost use Rattle.std.specs.Prelude.{◌≡◌, map};
ghost use Rattle.sheet.specs.Reading.{name_of};

use packing::{Load, Opening, SHEET_TASKS};

/// The head of a sheet, and how many tasks follow it.
#[derive(Clone, Copy, PartialEq, Eq, Debug)]
pub struct Head {
    pub cores: u16,
    pub unit: u16,
    pub frames: u16,
    pub tasks: usize,
}

impl Head {
    /// The opening of a run with the numbers of this head, for tasks of these rates.
    pub fn opening<'a>(self, rates: &'a [u16]) -> Opening<'a>
        ensures head { (result.load.cores ≡ self.cores) × (result.load.unit ≡ self.unit) × (result.frames ≡ self.frames) }
        ensures rates { result.load.rates.now ≡ rates.now }
    {
        let load = Load {
            cores: u32::from(self.cores),
            unit: u32::from(self.unit),
            rates,
        };
        Opening {
            load,
            frames: u32::from(self.frames),
        }
    }
}

/// A task. All is 0 in an entry that has none.
#[derive(Clone, Copy, Default, PartialEq, Eq, Debug)]
pub struct Entry {
    /// where its name begins in the sheet
    pub place: usize,
    /// how many bytes its name has
    pub size: usize,
    pub rate: u16,
    pub period: u16,
}

impl Entry {
    /// No task.
    pub const BLANK: Entry = Entry {
        place: 0,
        size: 0,
        rate: 0,
        period: 0,
    };

    /// Its name: the part of the sheet that it occupies. Of another sheet what there is of that part.
    pub fn name(self, sheet: &[u8]) -> &[u8]
        ensures { result.now ≡ name_of sheet.now self }
    {
        let rest = sheet.get(self.place..).unwrap_or(&[]);
        rest.get(..self.size).unwrap_or(rest)
    }
}

/// The rates of the entries, in order.
pub fn rates(table: &[Entry; SHEET_TASKS]) -> [u16; SHEET_TASKS]
    ensures { result ≡ map (λ e. e.rate) table.now }
{
    let mut rates = [0; SHEET_TASKS];
    for (i, entry) in table.iter().enumerate() {
        rates[i] = entry.rate;
    }
    rates
}
