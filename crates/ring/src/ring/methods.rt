ghost use Rattle.std.specs.Prelude.{◌≡◌, ◌<◌, ◌≤◌, [], length, ◌==◌};
ghost use Rattle.ring.specs.Held.{Pushed, Taken};
ghost use Rattle.ring.specs.Turned.{placed};

use super::Ring;

impl<'a, T: Copy> Ring<'a, T> {
    // An empty ring over the slots.
    pub fn new(slots: &'a mut [T]) -> Ring<'a, T>
        ensures empty { result.held ≡ [] }
        ensures size { result.room ≡ length slots.old }
    {
        Ring {
            slots,
            first: 0,
            count: 0,
        }
    }

    // How many elements it holds.
    pub fn len(&self) -> usize
        ensures { result ≡ length self.now.held }
    {
        self.count
    }

    // Whether it holds as many elements as it has slots; a ring of no slots is full.
    pub fn is_full(&self) -> bool
        ensures { result ≡ (length self.now.held == self.now.room) }
    {
        self.len() == self.slots.len()
    }

    // Adds `x` as the newest; a full ring hands it back.
    pub fn push(&mut self, x: T) -> Result<(), T>
        ensures { Pushed self.old x self.new result }
    {
        let room = self.slots.len();
        if self.count == room {
            return Err(x);
        }
        let at = place(self.first, self.count, room);
        self.slots[at] = x;
        self.count += 1;
        Ok(())
    }

    // Takes the oldest out.
    #[tactic(auto, using(crate::proofs::Rings::ringed_take))]
    pub fn take(&mut self) -> Option<T>
        ensures { Taken self.old self.new result }
    {
        if self.count == 0 {
            return None;
        }
        let x = self.slots[self.first];
        self.first = place(self.first, 1, self.slots.len());
        self.count -= 1;
        Some(x)
    }
}

// The slot that lies `count` places after `first`. The sum of the two may be beyond a usize, since elements of no size have no limit.
fn place(first: usize, count: usize, size: usize) -> usize
    requires { (first < size) × (count ≤ size) }
    ensures { result ≡ placed first count size }
{
    let after = size - first;
    if count < after {
        first + count
    } else {
        count - after
    }
}
