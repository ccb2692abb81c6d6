//! Fetches of instructions.

ghost use Rattle.std.specs.Prelude.{◌≡◌, ◌%◌, ◌<◌, length, OnErr, Some, None, if◌then◌else◌};
ghost use Rattle.or_words.specs.declared.Width.TheVariants.{Word};
ghost use Rattle.or_parts.specs.Memory.{value_at};
ghost use Rattle.or_parts.specs.Lines.{line_bytes};
ghost use Rattle.or_model.specs.World.{World};
ghost use Rattle.or_model.specs.Bus.{fetch};
ghost use Rattle.or_bus.specs.Represents.{Represents};
ghost use Rattle.or_bus.specs.Answers.{IsAnswer};

use crate::BusError;
use crate::bus::Bus;
use or_model::Fetched;

impl Bus {
    // The word at an address and, where the fetch is cached, its line.
    fn read_instruction(&mut self, pa: u32, cached: bool) -> Fetched
        requires inside { pa < length self.old.ram }
        requires aligned { pa % 4 ≡ 0 }
        ensures value { result ≡ record { word = value_at self.old.ram pa Word; line = (if cached then Some (line_bytes self.old.ram pa) else None) } }
        ensures after { self.new ≡ record self.old { reads = self.new.reads } }
    {
        let word = self.read_word(pa);
        if cached {
            let line = self.read_line(pa);
            Fetched {
                word,
                line: Some(line),
            }
        } else {
            Fetched { word, line: None }
        }
    }

    // A fetch from RAM, which no world tells.
    fn fetch_ram(&mut self, pa: u32, cached: bool) -> Fetched
        requires inside { pa < length self.old.ram }
        requires aligned { pa % 4 ≡ 0 }
        ensures value { result ≡ record { word = value_at self.old.ram pa Word; line = (if cached then Some (line_bytes self.old.ram pa) else None) } }
        ensures after { self.new ≡ record self.old { reads = self.new.reads } }
        ensures tracks { (world : World) → Represents self.old world → Represents self.new world }
    {
        self.read_instruction(pa, cached)
    }

    /// A fetch of the big-endian word at an address, a multiple of four; where it is cached, with the 32 bytes of RAM
    /// of the line that holds the address. No data cache has a part in it. Only RAM answers: elsewhere it is a bus
    /// error, and nothing changes.
    #[tactic(auto, unfolding(or_model::specs::Bus::fetch))]
    pub fn fetch(&mut self, pa: u32, cached: bool) -> Result<Fetched, BusError>
        requires { pa % 4 ≡ 0 }
        ensures answer { (world : World) → Represents self.old world → IsAnswer (fetch world pa cached) result self.new }
        ensures err { OnErr result (self.new ≡ self.old) }
        ensures last { self.new.last ≡ self.old.last }
        ensures cores { self.new.cores ≡ self.old.cores }
        ensures spare { self.new.spare ≡ self.old.spare }
    {
        if !self.has_ram(pa) {
            return Err(BusError);
        }
        Ok(self.fetch_ram(pa, cached))
    }
}
