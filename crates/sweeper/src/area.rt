// What a cycle keeps from its start to its finish.
ghost use Rattle.std.specs.Prelude.{◌≡◌};

/// The evacuation area and the roots of a cycle's start, and room to list every object that late marking scans.
#[derive(Debug, Drop)]
pub struct Area {
    pub(crate) start: Option<u32>,
    pub(crate) roots: Vec<u32>,
    pub(crate) work: Vec<u32>,
}

impl Area {
    /// The first index of the evacuation area, or None where the cycle has none.
    pub fn start(&self) -> Option<u32>
        ensures { result ≡ self.now.start }
    {
        self.start
    }

    /// The objects that globals and variables held at the start, ascending.
    pub fn roots(&self) -> &[u32]
        ensures { result.now ≡ self.now.roots.items }
    {
        self.roots.as_slice()
    }
}
