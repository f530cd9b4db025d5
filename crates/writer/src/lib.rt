// Puts the words of a netlist into a memory: gates, wires with their fills, clock and end.
#![tactic(auto)]

ghost use Rattle.std.specs.Prelude.{◌≡◌, [], ◌∷◌, ◌+◌, ◌*◌, ◌<◌, ◌≤◌, map, length};
ghost use Rattle.std.specs.List.{AllByRecursion};
ghost use Rattle.model.specs.Circuit.{kept};
ghost use Rattle.words.specs.Layout.{gate_word};
ghost use Rattle.words.specs.Netlist.{Joins};
ghost use Rattle.writer.specs.Writing.{Puts, body_of, Tabled, FileIn};

use model::Wire;

// Puts a word for each gate at the start of the memory.
fn put_gates(delays: &[u16], out: &mut [u32])
    requires { length delays.now ≤ length out.old }
    ensures { Puts out.old (map gate_word delays.now) out.new }
{
    // By index: after a `zip` over `iter_mut` no proof knows what the memory holds.
    for (i, delay) in delays.iter().enumerate() {
        out[i] = words::gate_word(*delay);
    }
}

// The wire word and the fill word of a wire.
fn words_of(wire: &Wire) -> [u32; 2]
    requires { Joins 127 wire.now }
    ensures { result ≡ body_of (wire.now ∷ []) }
{
    [
        words::wire_word(wire.from, wire.to).unwrap(),
        words::fill_word(wire.price, wire.registers, wire.floor, wire.ceiling).unwrap(),
    ]
}

// Puts two words for each wire that is not dropped at the start of the memory, and answers how many.
fn put_wires(wires: &[Option<Wire>], out: &mut [u32]) -> usize
    requires room { 2 * length (kept wires.now) ≤ length out.old }
    requires joins { AllByRecursion (Joins 127) (kept wires.now) }
    ensures words { Puts out.old (body_of (kept wires.now)) out.new }
    ensures count { result ≡ 2 * length (kept wires.now) }
{
    let mut long = 0;
    // By index: after a `zip` over `chunks_exact_mut` no proof knows that either.
    for (i, wire) in wires.iter().flatten().enumerate() {
        let at = 2 * i;
        out[at..at + 2].copy_from_slice(&words_of(wire));
        long = at + 2;
    }
    long
}

// Puts the file of gates, wires and clock at the start of the memory; answers its length, since the memory is the caller's.
pub fn put_file(delays: &[u16], wires: &[Option<Wire>], clock: u32, out: &mut [u32]) -> usize
    requires room { length delays.now + 2 * length (kept wires.now) + 2 ≤ length out.old }
    requires fits { Tabled delays.now wires.now clock }
    ensures { FileIn (record { delays = delays.now; wires = kept wires.now; clock = clock }) out.old result out.new }
{
    put_gates(delays, out);
    let at = delays.len() + put_wires(wires, &mut out[delays.len()..]);
    out[at] = words::clock_word(clock).unwrap();
    out[at + 1] = words::end_word((at + 1) as u32).unwrap();
    at + 2
}
