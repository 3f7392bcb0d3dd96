// The names of measures.
use std::alloc::{AllocError, Global};
use std::collections::HashMap;
use std::marker::Model;

/// The names of the measures so far, in order, and by each name the number of its latest measure.
#[derive(Drop)]
pub struct Names<'a> {
    all: Vec<&'a str>,
    latest: HashMap<&'a str, usize>,
}

impl<'a> Model for Names<'a> {
    ghost use Rattle.packlist.specs.Names.{Word, IsIndexOf};
    ghost use Rattle.std.specs.Prelude.{List};

    ghost Value = { List Word };

    ghost view = { λ n. n.all.items };

    ghost invariant = { λ n. IsIndexOf n.latest n.all.items };
}

impl<'a> Names<'a> {
    ghost use Rattle.std.specs.Prelude.{◌≡◌, [], ◌∷◌, ◌++◌, OnOk, OnErr};
    ghost use Rattle.packlist.specs.Names.{latest_of};

    pub fn new(alloc: Global) -> Names<'a>
        ensures { result ≡ [] }
    {
        Names {
            all: Vec::new(alloc),
            latest: HashMap::new(alloc),
        }
    }

    /// The number of the latest measure of a name.
    pub fn latest(&self, name: &str) -> Option<usize>
        ensures { result ≡ latest_of self.now name.now }
    {
        self.latest.get(name).copied()
    }

    /// One more measure.
    pub fn push(&mut self, name: &'a str) -> Result<(), AllocError>
        ensures ok { OnOk result (self.new ≡ self.old ++ name.entry ∷ []) }
        ensures err { OnErr result (self.new ≡ self.old) }
    {
        let number = self.all.len();
        self.all.reserve(1)?;
        self.latest.insert(name, number)?;
        self.all.push_reserved(name);
        Ok(())
    }
}
