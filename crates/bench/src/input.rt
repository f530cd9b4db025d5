ghost use Rattle.std.specs.Prelude.{◌≡◌, ◌+◌, ◌-◌, min, ◌++◌, length, take, IfOk, vec_len, OnOk};

use std::alloc::AllocError;
use std::io;
use std::io::Read;

// The longest file has 1,153 words, and a fault of any other lies in its first 1,154: no later byte is kept.
const KEPT: usize = 4616;

// What standard input holds: its first bytes, and how many there are in all.
#[derive(Drop)]
pub struct Input {
    pub kept: Vec<u8>,
    pub bytes: u64,
}

// Keeps as many of the bytes as there is room for.
fn keep(kept: &mut Vec<u8>, more: &[u8]) -> Result<(), AllocError>
    ensures len { OnOk result (vec_len kept.new ≡ vec_len kept.old + min (length more.now) (4616 - vec_len kept.old)) }
    ensures items { OnOk result (kept.new.items ≡ kept.old.items ++ take (4616 - vec_len kept.old) more.now) }
{
    let room = KEPT.saturating_sub(kept.len());
    let n = more.len().min(room);
    kept.extend_from_slice(&more[0..n])
}

// Reads to the end.
pub fn read_input(rt: HostRuntime) -> io::Result<Input>
    ensures { IfOk result (λ i. vec_len i.kept ≡ min i.bytes 4616) }
{
    let mut stdin = rt.stdin();
    let mut head = Vec::new(rt.alloc());
    let mut bytes = 0u64;
    for _ in 0..u64::MAX {
        let mut chunk = [0u8; 4096];
        let n = stdin.read(&mut chunk)?;
        if n == 0 {
            break;
        }
        bytes = bytes.saturating_add(n as u64);
        keep(&mut head, &chunk[0..n])?;
    }
    Ok(Input { kept: head, bytes })
}
