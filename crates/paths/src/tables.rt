// The tables of W and D: the cell u * n + v, of n gates, is that of the gates u and v.
ghost use Rattle.std.specs.Prelude.{◌≡◌, ℕ, ◌+◌, ◌*◌, ◌^◌, ◌<◌, ◌≤◌, length, Some};
ghost use Rattle.model.specs.Amounts.{Filled};
ghost use Rattle.ways.specs.Walks.{known};
ghost use Rattle.paths.specs.Arcs.{circuit};
ghost use Rattle.paths.specs.Rows.{Stands, Told, Outside, Beyond};

use crate::net::Paths;
use ways::Way;

// The cell of the gates u and v.
fn place(u: usize, v: usize, n: usize) -> usize
    requires { (u < n) × (v < n) × (n ≤ 128) }
    ensures { result ≡ u * n + v }
{
    u * n + v
}

// The least weight and the greatest delay of paths so light; the distance found leaves out `own`, the delay of the first gate.
fn cell(own: u32, found: Option<(u32, u32)>) -> (u32, u32)
    requires { (x : ℕ × ℕ) → found ≡ Some x → x.1 + own < 2 ^ 32 }
    ensures { Stands own found result.0 result.1 }
{
    found.map_or(
        (0xFFFF_FFFF, 0),
        |(registers, delay)| (registers, delay + own),
    )
}

// Writes the row of the gate u, whose delay is `own`.
fn write_row(u: usize, own: u32, found: &[Way<(u32, u32)>], least: &mut [u32], most: &mut [u32])
    requires sizes { let n = length found.now in (u < n) × (n ≤ 128) × (u * n + n ≤ length least.old) × (u * n + n ≤ length most.old) }
    requires exact { (v : ℕ) (x : ℕ × ℕ) → v < length found.now → (known found.now v).distance ≡ Some x → x.1 + own < 2 ^ 32 }
    ensures told { let n = length found.now in Told (u * n) own found.now n least.new most.new }
    ensures least { let n = length found.now in Outside (u * n) n least.old least.new }
    ensures most { let n = length found.now in Outside (u * n) n most.old most.new }
{
    for (v, way) in found.iter().enumerate() {
        let i = place(u, v, found.len());
        (least[i], most[i]) = cell(own, way.distance);
    }
}

impl Paths<'_, '_> {
    // Fills the first n * n cells of the tables with W and D, of n gates; a cell without a path gets 4,294,967,295 and 0.
    pub fn fill_tables(&self, least: &mut [u32], most: &mut [u32])
        requires room { (length self.now.delays.now * length self.now.delays.now ≤ length least.old) × (length self.now.delays.now * length self.now.delays.now ≤ length most.old) }
        ensures filled { Filled (circuit self.now.delays.now self.now.wires.now) least.new most.new }
        ensures least { Beyond (length self.now.delays.now * length self.now.delays.now) least.old least.new }
        ensures most { Beyond (length self.now.delays.now * length self.now.delays.now) most.old most.new }
    {
        let n = self.delays.len();
        // No path begins at the host.
        least[..n].fill(0xFFFF_FFFF);
        most[..n].fill(0);
        let mut found: [Way<(u32, u32)>; 128] = Default::default();
        let found = &mut found[..n];
        // By number, since the search and the row go by it.
        for u in 1..n {
            self.settle(u, found);
            write_row(u, u32::from(self.delays[u]), found, least, most);
        }
    }
}
