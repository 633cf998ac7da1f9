// The print queue, which the host keeps and passes by value.
ghost use Rattle.std.specs.Prelude.{◌≡◌};
ghost use Rattle.queue.specs.Arrays.{joined_of, turned_of};

use queue::{Joined, Queue, Turned, join, turn};

pub fn katchidul_join(queue: Queue, id: u32, pages: u32) -> Joined
    ensures { result ≡ joined_of queue id pages }
{
    join(queue, id, pages)
}

pub fn katchidul_turn(queue: Queue) -> Turned
    ensures { result ≡ turned_of queue }
{
    turn(queue)
}
