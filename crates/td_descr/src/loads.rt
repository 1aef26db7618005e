//! The loads of a descriptor.

ghost use Rattle.std.specs.Prelude.{◌≡◌, ◌<◌, ◌≤◌, [], ◌∷◌, ◌++◌};
ghost use Rattle.td_stream.specs.Loads.{IsNext};

use std::marker::Model;
use td_stream::load::Load;
use td_stream::loads::Loads;

/// The loads of a descriptor's two words, each made at most once. A contract sees the list of them.
#[derive(Drop)]
pub struct DescLoads {
    first: Option<u64>,
    second: Option<u64>,
}

impl Model for DescLoads {
    ghost use Rattle.std.specs.Prelude.{List};
    ghost use Rattle.td_descr.specs.Imports.{Load};
    ghost use Rattle.td_descr.specs.Words.{pair_loads};

    ghost Value = { List Load };

    ghost view = { λ d. pair_loads d.first d.second };
}

impl DescLoads {
    /// No load.
    pub fn none() -> DescLoads
        ensures { result ≡ [] }
    {
        DescLoads {
            first: None,
            second: None,
        }
    }

    /// One more load at the end, of a word that comes after those before.
    pub fn push(&mut self, load: Load)
        requires two { load.word < 2 }
        requires next { IsNext load.word self.old }
        ensures { self.new ≡ self.old ++ load ∷ [] }
    {
        if load.word == 0 {
            self.first = Some(load.value);
        } else {
            self.second = Some(load.value);
        }
    }

    /// Puts them at the end of a list that has room for two.
    pub fn put(&self, loads: &mut Loads)
        requires room { 2 ≤ loads.old.room }
        ensures list { loads.new.list ≡ loads.old.list ++ self.now }
    {
        if let Some(value) = self.first {
            loads.push(Load { word: 0, value });
        }
        if let Some(value) = self.second {
            loads.push(Load { word: 1, value });
        }
    }
}
